//! The report: a line for each point, its sectors in flight, and the totals.
ghost use Rattle.std.specs.Prelude.{◌≡◌, ◌≤◌, length, IfOk};
ghost use Rattle.crash.specs.States.{states};
ghost use Rattle.trace.specs.Meaning.{effects_of, recording_of};

use crate::taken::Taken;
use candidates::candidates_of;
use console::{Failed, Program};
use image::ImageStore;
use points::point_states;
use recording::{Entry, Reader};
use std::alloc::{AllocError, Global};
use words::point_words;

/// The word for so many states.
fn state_word(states: u64) -> &'static str {
    if states == 1 { "state" } else { "states" }
}

/// Numbers with a space before each.
fn spaced(heap: Global, numbers: &[usize]) -> Result<String, AllocError> {
    let mut text = String::new(heap);
    for number in numbers {
        write!(text, " {number}")?;
    }
    Ok(text)
}

/// The entry before a point, which the reader gives next; none stands before point 0.
fn entry_before<'a>(point: usize, reader: &mut Reader<'a>) -> Option<Entry<'a>> {
    if point == 0 {
        return None;
    }
    // The bytes were taken, so an entry is there; a type that says so would relate reader, trace and point for this
    // call alone.
    reader.next().ok().flatten()
}

impl<S: ImageStore> Taken<S> {
    /// Prints the sectors that have more than one candidate at a point.
    fn report_sectors(&self, rt: &HostRuntime, point: usize) -> Result<(), Failed>
        requires { point ≤ length (effects_of self.now.trace) }
    {
        // By number: a store lends no slice of its sectors.
        for sector in 0..self.base.count() {
            let numbers = candidates_of(&self.trace, &self.base, sector, point).unwrap();
            if numbers.values().len() > 1 {
                let text = spaced(rt.alloc(), numbers.values())?;
                println!(rt; "  sector {sector}:{text}")?;
            }
        }
        Ok(())
    }

    /// Prints the line of a point and its sectors; gives the number of its states.
    fn report_point(&self, rt: &HostRuntime, point: usize, before: &str) -> Result<u64, Failed>
        requires { point ≤ length (effects_of self.now.trace) }
        ensures { IfOk result (λ n. n ≡ length (states (recording_of (S.ImageStore.sectors self.now.base) self.now.trace) point)) }
    {
        let states = point_states(&self.trace, &self.base, point).unwrap();
        let word = state_word(states);
        println!(rt; "point {point}: {states} {word} {before}")?;
        self.report_sectors(rt, point)?;
        Ok(states)
    }

    /// Prints every point, and then the totals.
    #[tactic(auto, using(trace::proofs::Writing::effects_length))]
    pub fn report(&self, program: &Program, bytes: &[u8]) -> Result<(), Failed> {
        let rt = program.rt;
        let mut reader = Reader::open(bytes).map_err(|why| program.declined(why.code(), why))?;
        let mut all = 0u64;
        let mut widest = 0;
        // Points are named by number.
        for point in 0..=self.trace.len() {
            let before = point_words(rt.alloc(), point, entry_before(point, &mut reader))?;
            let states = self.report_point(rt, point, before.as_str())?;
            all = all.saturating_add(states);
            widest = widest.max(states);
        }
        let points = self.trace.len() + 1;
        println!(rt; "{points} points, {all} states in all, {widest} at the widest point")?;
        Ok(())
    }
}
