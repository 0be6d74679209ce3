//! How a run takes up a recording.
ghost use Rattle.std.specs.Prelude.{◌≡◌, ℕ, false, IfErr};
ghost use Rattle.image.specs.Shown.{shown, holds};
ghost use Rattle.law.specs.History.{load};
ghost use Rattle.law.specs.Law.{call_of};
ghost use Rattle.progress.specs.declared.condition.Condition.TheVariants.{Empty};
ghost use Rattle.run.specs.Seen.{Goes, Kept, base_of};
ghost use Rattle.run.specs.Faults.{Blames};
ghost use Rattle.run.specs.Events.{event_of};
ghost use Rattle.run.specs.Loads.{Recovered};

use crate::call::Answer;
use crate::refusal::Refusal;
use crate::run::Run;
use filesystem::{Fault, FileSystem};
use image::{ImageStore, Overlay};
use taking::take_recording;
use tree::Tree;

/// The tree that the image of an overlay recovers to, or the fault; what recovery wrote is dropped.
fn recovered_tree<S: ImageStore, F: FileSystem>(
    fs: &F,
    scratch: &mut Overlay<S>,
) -> Result<Tree, Fault>
    ensures told { Recovered result (F.FileSystem.outcome fs.now (shown S.ImageStore.sectors scratch.old)) }
    ensures below { scratch.new.below ≡ scratch.old.below }
    ensures none { (k : ℕ) → holds scratch.new k ≡ false }
{
    let mut tree = Tree::bare();
    let answer = fs.recover(scratch, &mut tree);
    scratch.forget();
    answer.map(|()| tree)
}

impl<S: ImageStore, F: FileSystem> Run<S, F> {
    /// Takes up a recording, or declines it: for the image, the base, the recording, its points.
    pub(crate) fn take_up(&mut self, recording: &[u8]) -> Result<Answer, Refusal>
        requires { self.old.progress.condition ≡ Empty }
        ensures kept { Kept self.old self.new }
        ensures fits { call_of (event_of (load recording.now) result) ≡ load recording.now }
        ensures goes { Goes self.old (event_of (load recording.now) result) self.new }
        ensures fault { IfErr result (Blames (F.FileSystem.outcome self.old.fs (base_of self.old))) }
    {
        if self.layers.count() < F::LEAST {
            return Err(Refusal::TooFewSectors);
        }
        let tree = recovered_tree(&self.fs, &mut self.layers)?;
        let trace = take_recording(self.heap, recording, &self.layers.below.below)?;
        self.progress.load(trace.len());
        self.space.tree = tree;
        self.space.trace = trace;
        Ok(Answer::Loaded)
    }
}
