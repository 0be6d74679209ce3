//! The state that a choice takes, put onto an overlay.
ghost use Rattle.std.specs.Prelude.{◌≡◌, ℕ, ◌≤◌, Bool, false, length};
ghost use Rattle.image.specs.Sectors.{Shaped};
ghost use Rattle.image.specs.Shown.{shown};
ghost use Rattle.trace.specs.Meaning.{recording_of, effects_of, Whole};
ghost use Rattle.standing.specs.Places.{chosen, candidates_in, Put};
ghost use Rattle.standing.specs.Standing.{Lists, Firsts, Stands, Entry, Onward};

use crate::choice::Choice;
use crate::sectors::put;
use candidates::{Refusal, candidates_of};
use image::{ImageStore, Overlay};
use trace::Trace;

// The trace and the overlay are lent for each step: a choice that kept them could not be stored
// beside them.
impl Choice {
    /// The candidates of every sector at a point, with the first of each taken.
    pub fn at<S: ImageStore>(trace: &Trace, base: &S, point: usize) -> Result<Choice, Refusal>
        ensures { Entry (recording_of (S.ImageStore.sectors base.now) trace.now) point result }
    {
        let mut choice = Choice::new();
        for s in 0..base.count() {
            choice.list(s, candidates_of(trace, base, s, point)?);
        }
        Ok(choice)
    }

    // The clause `below`, here and in the next two: no type relates an overlay before a call to the one after it.
    /// Puts what the sectors from `first` on take onto an overlay, where that is due.
    fn put_due<S: ImageStore, F: Fn(usize) -> bool>(
        &self,
        trace: &Trace,
        state: &mut Overlay<S>,
        first: usize,
        due: F,
    )
        requires callable { F.IsAlwaysCallable due }
        requires first { first ≤ length (S.ImageStore.sectors state.old.below) }
        ensures below { state.new.below ≡ state.old.below }
        ensures shaped { Shaped (S.ImageStore.sectors state.old.below) }
        ensures image { (test : ℕ → Bool) → ((s : ℕ) (b : Bool) → F.post due s b → b ≡ test s) → Put test (chosen (recording_of (S.ImageStore.sectors state.old.below) trace.now) self.now) first (length (S.ImageStore.sectors state.old.below)) (shown S.ImageStore.sectors state.old) (shown S.ImageStore.sectors state.new) }
    {
        for s in first..state.below.count() {
            if due(s) {
                put(trace, state, s, self.number(s));
            }
        }
    }

    /// Puts the first state of the point onto the overlay.
    pub fn lay<S: ImageStore>(&self, trace: &Trace, state: &mut Overlay<S>)
        ensures below { state.new.below ≡ state.old.below }
        ensures stands { (p : ℕ) → Whole (effects_of trace.now) → Lists (recording_of (S.ImageStore.sectors state.old.below) trace.now) p self.now → Firsts (recording_of (S.ImageStore.sectors state.old.below) trace.now) self.now → Stands (recording_of (S.ImageStore.sectors state.old.below) trace.now) p 0 self.now (shown S.ImageStore.sectors state.new) }
    {
        state.forget();
        self.put_due(trace, state, 0, |s| self.number(s) != 0);
    }

    /// Goes on to the next state of the point, on the overlay too. Where there is none the answer
    /// is false, and nothing changes.
    // A bool, and no Option of the first sector that changed: callers only ask whether there is a next state.
    pub fn advance<S: ImageStore>(&mut self, trace: &Trace, state: &mut Overlay<S>) -> bool
        ensures below { state.new.below ≡ state.old.below }
        ensures candidates { candidates_in self.new ≡ candidates_in self.old }
        ensures stays { result ≡ false → (self.new ≡ self.old) × (state.new ≡ state.old) }
        ensures onward { (p k : ℕ) → Whole (effects_of trace.now) → Stands (recording_of (S.ImageStore.sectors state.old.below) trace.now) p k self.old (shown S.ImageStore.sectors state.old) → Onward (recording_of (S.ImageStore.sectors state.old.below) trace.now) p k self.new (shown S.ImageStore.sectors state.new) result }
    {
        let count = state.below.count();
        // Moved on in a copy, which is let go after the last state. Lending the field itself was tried: beside ghost
        // fields it has no proof.
        let mut places = self.places;
        let Some(first) = points::advance(&mut places[..count], &self.counts[..count]).unwrap()
        else {
            return false;
        };
        self.places = places;
        self.put_due(trace, state, first, |s| self.count(s) > 1);
        true
    }
}
