//! What each accepted call makes of a run's progress. A count that is full stays full.
ghost use Rattle.std.specs.Prelude.{◌≡◌};
ghost use Rattle.progress.specs.Moves.{begun, loaded, entered, stepped, ended, judged_as, left};

use crate::condition::{Condition, Progress};

impl Progress {
    /// A run that has just begun.
    pub fn new() -> Progress
        ensures { result ≡ begun }
    {
        Progress::default()
    }

    /// A recording is loaded; its last crash point is `last`.
    pub fn load(&mut self, last: usize)
        ensures { self.new ≡ loaded last self.old }
    {
        self.condition = Condition::Ready;
        self.last = last;
    }

    /// The first state of a point is given; the point has so many states.
    pub fn enter(&mut self, point: usize, states: u64)
        ensures { self.new ≡ entered point states self.old }
    {
        self.condition = Condition::Waiting;
        self.point = point;
        self.rank = 0;
        self.states = states;
        self.passed = self.passed.saturating_add(1);
    }

    /// The next state of the same point is given.
    pub fn step(&mut self)
        ensures { self.new ≡ stepped self.old }
    {
        self.condition = Condition::Waiting;
        self.rank = self.rank.saturating_add(1);
        self.passed = self.passed.saturating_add(1);
    }

    /// No state is left.
    pub fn end(&mut self)
        ensures { self.new ≡ ended self.old }
    {
        self.condition = Condition::Ended;
    }

    /// The standing state is judged; `is_unsafe` where its outcome is not 0.
    pub fn judge(&mut self, is_unsafe: bool)
        ensures { self.new ≡ judged_as is_unsafe self.old }
    {
        self.condition = Condition::Judged;
        self.judged = self.judged.saturating_add(1);
        if is_unsafe {
            if self.unsafe_judged == 0 {
                self.first = Some((self.point, self.rank));
            }
            self.unsafe_judged = self.unsafe_judged.saturating_add(1);
        }
    }

    /// The point's states after the standing one are forgone, and that one too if `waiting` is 1.
    pub fn forgo(&mut self, waiting: u64)
        ensures { self.new ≡ left waiting self.old }
    {
        // A number, as in the rules: waiting is 1 in Waiting and 0 else.
        let rest = self.states.saturating_sub(self.rank.saturating_add(1));
        self.condition = Condition::Left;
        self.forgone = self.forgone.saturating_add(rest.saturating_add(waiting));
        self.passed = self.passed.saturating_add(rest);
    }
}
