//! The lists and places of a choice, made and read.
ghost use Rattle.std.specs.Prelude.{◌≡◌, ◌<◌, [], replicate, slice_index, slice_index_or, slice_set};
ghost use Rattle.candidates.specs.Lists.{listed};
ghost use Rattle.standing.specs.Places.{lists_in, counts_in, places_in, taken as taken_by};

use crate::choice::Choice;
use candidates::Few;
use image::MOST;

impl Choice {
    /// Nothing chosen: no sector has candidates.
    pub fn new() -> Choice
        ensures lists { lists_in result ≡ replicate 64 [] }
        ensures places { places_in result ≡ replicate 64 0 }
    {
        let candidates = [Few::empty(0); MOST];
        let counts = [0; MOST];
        let places = [0; MOST];
        Choice {
            candidates,
            counts,
            places,
        }
    }

    /// Lists the candidates of a sector.
    pub(crate) fn list(&mut self, sector: usize, candidates: Few<usize>)
        requires { sector < 64 }
        ensures lists { lists_in self.new ≡ slice_set (lists_in self.old) sector (listed candidates) }
        ensures places { places_in self.new ≡ places_in self.old }
    {
        self.counts[sector] = candidates.values().len();
        self.candidates[sector] = candidates;
    }

    /// How many candidates a sector has; 0 where there is no such sector.
    pub(crate) fn count(&self, sector: usize) -> usize
        ensures { result ≡ slice_index (counts_in self.now) sector }
    {
        self.counts.get(sector).copied().unwrap_or(0)
    }

    /// The numbers of a sector's candidates; none where there is no such sector.
    fn numbers(&self, sector: usize) -> &[usize]
        ensures { result.now ≡ slice_index_or (lists_in self.now) sector [] }
    {
        self.candidates.get(sector).map_or(&[], |few| few.values())
    }

    /// The number of the candidate that a sector takes; 0 where none lies at its place.
    pub(crate) fn number(&self, sector: usize) -> usize
        ensures { result ≡ taken_by self.now sector }
    {
        let place = self.places.get(sector).copied().unwrap_or(0);
        // No Option: every state that is laid has a candidate at each place, so nobody asks whether there is one.
        self.numbers(sector).get(place).copied().unwrap_or(0)
    }
}
