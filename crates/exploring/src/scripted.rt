//! A run made by a script.
ghost use Rattle.std.specs.Prelude.{◌≡◌, None, OnOk, is_ok};
ghost use Rattle.law.specs.History.{Report, begun as nothingCalled, then, reported};
ghost use Rattle.law.specs.Law.{Law};
ghost use Rattle.meaning.specs.Subjects.{subject_of};
ghost use Rattle.run.specs.Events.{call_seen};
ghost use Rattle.exploring.specs.Lines.{Written};
ghost use Rattle.exploring.specs.Scripts.{Chosen, Followed, heard_line, lines_of, meant};
ghost use Rattle.work.specs.Talks.{Talk, history_after};

use crate::lines::write_answer;
use console::Failed;
use filesystem::FileSystem;
use image::ImageStore;
use run::{Answer, Call, Refusal};
use script::Spoken;
use std::alloc::Global;
use std::io::Write;
use work::{Caller, whole_run};

/// A caller that makes the calls of a script in order, and writes the line of each answer.
#[derive(Drop)]
struct Scripted<'a, 'b, W> {
    heap: Global,
    recording: &'a [u8],
    calls: &'b [Spoken],
    out: &'b mut W,
    failed: Option<Failed>,
}

/// The call that is meant, where `load` loads this recording.
fn call_of(spoken: Spoken, recording: &[u8]) -> Call<'_>
    ensures { call_seen result ≡ meant recording.now spoken }
{
    match spoken {
        Spoken::Load => Call::Load(recording),
        Spoken::Advance => Call::Advance,
        Spoken::Judge => Call::Judge,
        Spoken::Forgo => Call::Forgo,
        Spoken::Look { sector, size } => Call::Look { sector, size },
        Spoken::Report => Call::Report,
    }
}

impl<'a, W: Write> Caller<'a> for Scripted<'a, '_, W> {
    ghost says = { λ s last call t. Chosen s.recording.now s.calls.now t.calls.now t.failed call × (t.recording.now ≡ s.recording.now) × (t.failed ≡ None → (s.failed ≡ None) × Written (W.Write.contents s.out.now) (W.Write.contents t.out.now) (heard_line last)) × (t.out.ghost_name ≡ s.out.ghost_name) };

    #[tactic(auto, using(crate::proofs::Writing::nothing_written))]
    fn next(&mut self, last: Option<Result<Answer, Refusal>>) -> Option<Call<'a>> {
        if let Some(answer) = last {
            if let Err(failed) = write_answer(self.heap, self.out, &answer) {
                self.failed = Some(failed);
                return None;
            }
        }
        let (first, rest) = self.calls.split_first()?;
        self.calls = rest;
        Some(call_of(*first, self.recording))
    }
}

/// Makes the calls of a script on a run over the image of a store, and writes the line of each answer.
pub fn follow_script<S: ImageStore + Drop, F: FileSystem + Drop, W: Write>(
    heap: Global,
    base: S,
    fs: F,
    recording: &[u8],
    calls: &[Spoken],
    out: &mut W,
) -> Result<(), Failed>
    ensures { (t : Talk) × (r : Report) × Followed recording.now calls.now (is_ok result) t × OnOk result (Written (W.Write.contents out.old) (W.Write.contents out.new) (lines_of t)) × Law (subject_of F.FileSystem.LEAST (F.FileSystem.outcome fs) (S.ImageStore.sectors base)) (then (history_after nothingCalled t) (reported r)) (S.ImageStore.sectors base) }
{
    // One more than calls: after the last the caller hears its answer.
    let budget = (calls.len() as u64).saturating_add(1);
    let mut caller = Scripted {
        heap,
        recording,
        calls,
        out,
        failed: None,
    };
    let (_base, _report) = whole_run(heap, base, fs, &mut caller, budget);
    match caller.failed {
        Some(failed) => Err(failed),
        None => Ok(()),
    }
}
