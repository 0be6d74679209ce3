//! The one place where a call meets the condition of a run.
ghost use Rattle.std.specs.Prelude.{◌≡◌, IfErr};
ghost use Rattle.image.specs.Shown.{shown};
ghost use Rattle.law.specs.Law.{call_of};
ghost use Rattle.run.specs.Seen.{Goes, Kept, base_of};
ghost use Rattle.run.specs.Faults.{Blames};
ghost use Rattle.run.specs.Events.{call_seen, event_of};
ghost use Rattle.run.specs.Looks.{Viewed};

use crate::call::{Answer, Call};
use crate::refusal::Refusal;
use crate::run::Run;
use filesystem::FileSystem;
use image::{ImageStore, SECTOR};
use progress::Condition;

impl<S: ImageStore, F: FileSystem> Run<S, F> {
    /// A sector of the standing state, for a buffer of so many bytes.
    fn show(&self, sector: usize, size: usize) -> Result<Answer, Refusal>
        ensures { Viewed (shown S.ImageStore.sectors self.now.layers.below) sector size result }
    {
        if size != SECTOR {
            return Err(Refusal::Store(image::Refusal::BufferLength));
        }
        let mut buffer = [0u8; SECTOR];
        self.layers.below.read(sector, &mut buffer)?;
        Ok(Answer::Shown(buffer))
    }

    /// Makes a call: one arm for each transition and each refusal by the condition.
    // Inlined, for speed: a caller knows which answers its call has, and room for the others need not be cleared.
    #[inline(always)]
    pub(crate) fn turn(&mut self, call: Call) -> Result<Answer, Refusal>
        ensures kept { Kept self.old self.new }
        ensures fits { call_of (event_of (call_seen call.entry) result) ≡ call_seen call.entry }
        ensures goes { Goes self.old (event_of (call_seen call.entry) result) self.new }
        ensures fault { IfErr result (Blames (F.FileSystem.outcome self.old.fs (base_of self.old))) }
    {
        match (self.progress.condition, call) {
            (_, Call::Report) => Ok(Answer::Reported(self.progress.report())),
            (Condition::Empty, Call::Load(recording)) => self.take_up(recording),
            (Condition::Empty, _) => Err(Refusal::NothingLoaded),
            (_, Call::Load(_)) => Err(Refusal::AlreadyLoaded),
            (Condition::Ready, Call::Advance) => Ok(Answer::Next(self.enter(0))),
            (Condition::Judged, Call::Advance) => Ok(Answer::Next(self.go_on())),
            (Condition::Left, Call::Advance) => Ok(Answer::Next(self.enter_next())),
            (Condition::Waiting, Call::Advance) => Err(Refusal::NotJudged),
            (Condition::Ended, Call::Advance) => Err(Refusal::HasEnded),
            (Condition::Waiting, Call::Judge) => Ok(Answer::Found(self.judge_standing())),
            (Condition::Judged, Call::Judge) => Err(Refusal::AlreadyJudged),
            (Condition::Waiting, Call::Forgo) => {
                self.leave(1);
                Ok(Answer::Forgone)
            }
            (Condition::Judged, Call::Forgo) => {
                self.leave(0);
                Ok(Answer::Forgone)
            }
            (Condition::Waiting, Call::Look { sector, size }) => self.show(sector, size),
            (Condition::Judged, Call::Look { sector, size }) => self.show(sector, size),
            (_, _) => Err(Refusal::NoState),
        }
    }
}
