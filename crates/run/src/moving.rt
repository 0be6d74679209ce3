//! What a run does upon each call that it accepts.
ghost use Rattle.std.specs.Prelude.{◌≡◌};
ghost use Rattle.law.specs.History.{forwent};
ghost use Rattle.progress.specs.declared.condition.Condition.TheVariants.{Waiting, Judged, Left};
ghost use Rattle.run.specs.Seen.{Goes, Kept};
ghost use Rattle.run.specs.Events.{giving_of, found_of};
ghost use Rattle.run.specs.Moves.{Enters, WaitingIn};

use crate::run::Run;
use crate::space::lay_point;
use filesystem::FileSystem;
use image::ImageStore;
use judging::{Judgement, judge_state};

impl<S: ImageStore, F: FileSystem> Run<S, F> {
    /// Goes to the first state of a point; past the last point the run has ended.
    pub(crate) fn enter(&mut self, point: usize) -> Option<(usize, u64)>
        requires { Enters self.old.progress point }
        ensures kept { Kept self.old self.new }
        ensures goes { Goes self.old (giving_of result) self.new }
    {
        if point > self.progress.last {
            self.progress.end();
            return None;
        }
        let states = lay_point(&mut self.space, &mut self.layers.below, point);
        self.progress.enter(point, states);
        Some((point, 0))
    }

    /// Goes to the first state of the point behind the standing one.
    pub(crate) fn enter_next(&mut self) -> Option<(usize, u64)>
        requires { self.old.progress.condition ≡ Left }
        ensures kept { Kept self.old self.new }
        ensures goes { Goes self.old (giving_of result) self.new }
    {
        self.enter(self.progress.point.saturating_add(1))
    }

    /// Goes from a judged state to the next: of the same point, or the first of the next point.
    pub(crate) fn go_on(&mut self) -> Option<(usize, u64)>
        requires { self.old.progress.condition ≡ Judged }
        ensures kept { Kept self.old self.new }
        ensures goes { Goes self.old (giving_of result) self.new }
    {
        let choice = &mut self.space.choice;
        if !choice.advance(&self.space.trace, &mut self.layers.below) {
            return self.enter(self.progress.point.saturating_add(1));
        }
        self.progress.step();
        Some((self.progress.point, self.progress.rank))
    }

    /// Recovers the standing state on the upper overlay, judges it, and drops what recovery wrote.
    pub(crate) fn judge_standing(&mut self) -> Judgement
        requires { self.old.progress.condition ≡ Waiting }
        ensures kept { Kept self.old self.new }
        ensures goes { Goes self.old (found_of result) self.new }
    {
        let found = judge_state(&self.fs, &mut self.layers, &self.space.values);
        let (outcome, _node) = found.code();
        self.progress.judge(outcome != 0);
        found
    }

    /// Leaves the rest of the standing point; `waiting` is 1 where the standing state is not judged.
    pub(crate) fn leave(&mut self, waiting: u64)
        requires { WaitingIn self.old.progress.condition waiting }
        ensures kept { Kept self.old self.new }
        ensures goes { Goes self.old forwent self.new }
    {
        self.progress.forgo(waiting);
    }
}
