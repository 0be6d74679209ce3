//! The calls of a run.
ghost use Rattle.std.specs.Prelude.{◌≡◌, false, length, is_ok, IfErr};
ghost use Rattle.law.specs.Subject.{Subject};
ghost use Rattle.law.specs.History.{History, begun as nothingCalled, then, reported};
ghost use Rattle.law.specs.Law.{call_of, Law};
ghost use Rattle.law.specs.Steps.{report_on};
ghost use Rattle.meaning.specs.Subjects.{subject_of};
ghost use Rattle.progress.specs.Reports.{report_seen};
ghost use Rattle.run.specs.Seen.{Goes, Kept, Led, Went, base_of, view};
ghost use Rattle.run.specs.Events.{call_seen, event_of};
ghost use Rattle.run.specs.Faults.{Blames};
ghost use Rattle.run.specs.Typed.{advancing, judging as found_by, forgoing, loading, looking};

use crate::call::{Answer, Call};
use crate::refusal::Refusal;
use crate::run::Run;
use crate::space::Space;
use filesystem::FileSystem;
use image::{ImageStore, Overlay};
use judging::{Judgement, Values};
use progress::{Progress, Report};
use standing::Choice;
use std::alloc::Global;
use trace::Trace;
use tree::Tree;

impl<S: ImageStore, F: FileSystem> Run<S, F> {
    /// A run over the image of a store, with a file system. Nothing is loaded yet.
    pub fn begin(heap: Global, store: S, fs: F) -> Run<S, F>
        ensures store { result.layers.below.below ≡ store }
        ensures fs { result.fs ≡ fs }
        ensures led { Led (subject_of F.FileSystem.LEAST (F.FileSystem.outcome fs) (S.ImageStore.sectors store)) nothingCalled result }
    {
        let space = Space {
            trace: Trace::new(heap),
            tree: Tree::bare(),
            choice: Choice::new(),
            values: Values::none(),
        };
        Run {
            layers: Overlay::over(Overlay::over(store)),
            fs,
            heap,
            space,
            progress: Progress::new(),
        }
    }

    /// Makes any call. The store and the file system stay; the answer is one to this call and a
    /// step of the law; and whatever history led here, it goes on by this call and its answer. A
    /// fault that is named is the one that recovery finds in the base.
    pub fn call(&mut self, call: Call) -> Result<Answer, Refusal>
        ensures kept { Kept self.old self.new }
        ensures fits { call_of (event_of (call_seen call.entry) result) ≡ call_seen call.entry }
        ensures goes { Goes self.old (event_of (call_seen call.entry) result) self.new }
        ensures went { Went self.old (event_of (call_seen call.entry) result) self.new }
        ensures fault { IfErr result (Blames (F.FileSystem.outcome self.old.fs (base_of self.old))) }
    {
        self.turn(call)
    }

    /// Loads a recording into an Empty run. A fault that is named is the one that recovery finds in the base.
    pub fn load(&mut self, recording: &[u8]) -> Result<(), Refusal>
        ensures kept { Kept self.old self.new }
        ensures goes { Goes self.old (loading recording.now result) self.new }
        ensures went { Went self.old (loading recording.now result) self.new }
        ensures fault { IfErr result (Blames (F.FileSystem.outcome self.old.fs (base_of self.old))) }
    {
        match self.turn(Call::Load(recording))? {
            Answer::Loaded => Ok(()),
            _ => unreachable!(),
        }
    }

    /// Goes to the next state of the list: its point and its rank; none where no state follows.
    pub fn advance(&mut self) -> Result<Option<(usize, u64)>, Refusal>
        ensures kept { Kept self.old self.new }
        ensures goes { Goes self.old (advancing result) self.new }
        ensures went { Went self.old (advancing result) self.new }
    {
        match self.turn(Call::Advance)? {
            Answer::Next(next) => Ok(next),
            _ => unreachable!(),
        }
    }

    /// Recovers the standing state, and judges the tree or the fault.
    pub fn judge(&mut self) -> Result<Judgement, Refusal>
        ensures kept { Kept self.old self.new }
        ensures goes { Goes self.old (found_by result) self.new }
        ensures went { Went self.old (found_by result) self.new }
    {
        match self.turn(Call::Judge)? {
            Answer::Found(judgement) => Ok(judgement),
            _ => unreachable!(),
        }
    }

    /// Leaves the rest of the standing state's point, and that state too if it is not judged.
    pub fn forgo(&mut self) -> Result<(), Refusal>
        ensures kept { Kept self.old self.new }
        ensures goes { Goes self.old (forgoing result) self.new }
        ensures went { Went self.old (forgoing result) self.new }
    {
        match self.turn(Call::Forgo)? {
            Answer::Forgone => Ok(()),
            _ => unreachable!(),
        }
    }

    /// Fills a buffer with a sector of the standing state. Where it declines the buffer is as it was.
    pub fn look(&mut self, sector: usize, buffer: &mut [u8]) -> Result<(), Refusal>
        ensures kept { Kept self.old self.new }
        ensures stays { is_ok result ≡ false → buffer.new ≡ buffer.old }
        ensures goes { Goes self.old (looking sector (length buffer.old) buffer.new result) self.new }
        ensures went { Went self.old (looking sector (length buffer.old) buffer.new result) self.new }
    {
        let size = buffer.len();
        match self.turn(Call::Look { sector, size })? {
            Answer::Shown(content) => {
                fill(buffer, &content);
                Ok(())
            }
            _ => unreachable!(),
        }
    }

    /// The report. Whatever history led here, the law holds of it with this report.
    pub fn report(&self) -> Report
        ensures figures { report_seen result ≡ report_on (view self.now) }
        ensures law { (s : Subject) (h : History) → Led s h self.now → Law s (then h (reported (report_seen result))) (base_of self.now) }
        ensures went { Went self.now (reported (report_seen result)) self.now }
    {
        self.progress.report()
    }

    /// Ends the run, and gives the store back.
    pub fn close(self) -> S
    where
        F: Drop,
        ensures { result ≡ self.layers.below.below }
    {
        let Run {
            layers,
            fs: _,
            heap: _,
            space: _,
            progress: _,
        } = self;
        layers.into_below().into_below()
    }
}

/// Fills a buffer with bytes, as many as it has.
fn fill(buffer: &mut [u8], content: &[u8])
    ensures { length buffer.old ≡ length content.now → buffer.new ≡ content.now }
{
    if buffer.len() == content.len() {
        buffer.copy_from_slice(content);
    }
}
