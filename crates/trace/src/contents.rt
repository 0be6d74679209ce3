//! What the entries of a trace write.
ghost use Rattle.std.specs.Prelude.{◌≡◌, ℕ, ◌<◌, ◌≤◌, [], length, MatchOption};
ghost use Rattle.crash.specs.Nodes.{mark_at};
ghost use Rattle.crash.specs.Rules.{content};
ghost use Rattle.trace.specs.Meaning.{HasNoEntry, covering, step_at, step_effect, effects_of, marks_of, content_at};

use crate::steps::{Source, Step, Trace};
use mark::Mark;
use std::alloc::Global;

static ZEROS: [u8; 512] = [0; 512];

/// A step that does nothing.
const IDLE: Step = Step {
    flush: false,
    fua: false,
    first: 0,
    sectors: 0,
    source: Source::Zeros,
    mark: Mark::Comment,
};

impl Step {
    /// Whether the step writes a sector.
    pub fn covers(&self, sector: usize) -> bool
        ensures { result ≡ covering self.now sector }
    {
        // `as`, here and below: no `From` leads from `u32` to `usize`, and each cast is proved to lose no bit.
        sector >= self.first && sector - self.first < self.sectors as usize
    }
}

impl Trace {
    /// A trace of no entries.
    pub fn new(heap: Global) -> Trace
        ensures steps { result.steps.items ≡ [] }
        ensures sectors { result.sectors.items ≡ [] }
    {
        Trace {
            steps: Vec::new(heap),
            sectors: Vec::new(heap),
        }
    }

    /// How many entries there are.
    pub fn len(&self) -> usize
        ensures { result ≡ length self.now.steps.items }
    {
        self.steps.len()
    }

    /// The step of entry `k`, from 1; nothing where no entry has that number.
    fn find(&self, k: usize) -> Option<&Step>
        ensures { MatchOption result (HasNoEntry self.now k) (λ step. (step.now ≡ step_at self.now.steps.items k) × (0 < k) × (k ≤ length self.now.steps.items)) }
    {
        self.steps.get(k.checked_sub(1)?)
    }

    /// What entry `k` does, from 1; a number that no entry has does nothing.
    #[tactic(auto, using(crate::proofs::Writing::no_step))]
    pub fn step(&self, k: usize) -> Step
        ensures { result ≡ step_at self.now.steps.items k }
    {
        self.find(k).copied().unwrap_or(IDLE)
    }

    /// The mark of entry `k`, from 1; a comment where no entry has that number.
    #[tactic(auto, using(crate::proofs::Writing::mark_of_step, crate::proofs::Writing::mark_past))]
    pub fn mark(&self, k: usize) -> Mark
        ensures { result ≡ mark_at (marks_of self.now) k }
    {
        self.find(k).map_or(Mark::Comment, |step| step.mark)
    }

    /// What a step writes to a sector; nothing where it does not cover it.
    #[tactic(auto, using(crate::proofs::Writing::none_written, crate::proofs::Writing::zeros_written, crate::proofs::Writing::data_written))]
    fn written(&self, step: &Step, sector: usize) -> &[u8]
        ensures { result.now ≡ content (step_effect self.now.sectors.items step.now) sector }
    {
        let i = sector.saturating_sub(step.first);
        if i >= step.sectors as usize {
            return &[];
        }
        match step.source {
            Source::Zeros => &ZEROS,
            Source::Data { from } => self
                .sectors
                .get(from as usize + i)
                .map_or(&[], |data| data.as_slice()),
        }
    }

    /// The content of a sector with a number: `base` with number 0, else what that entry writes.
    #[tactic(auto, using(crate::proofs::Writing::content_of, crate::proofs::Writing::content_past))]
    pub fn content<'a>(&'a self, base: &'a [u8], sector: usize, number: usize) -> &'a [u8]
        ensures { result.now ≡ content_at base.now (effects_of self.now) sector number }
    {
        if number == 0 {
            return base;
        }
        self.find(number)
            .map_or(&[], |step| self.written(step, sector))
    }
}
