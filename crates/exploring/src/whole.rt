//! A whole exploration.
ghost use Rattle.std.specs.Prelude.{IfErr, IfOk, OnOk};
ghost use Rattle.meaning.specs.Subjects.{subject_of};
ghost use Rattle.progress.specs.Reports.{report_seen};
ghost use Rattle.run.specs.Refusals.{code_of};
ghost use Rattle.exhaust.specs.Exhausted.{Exhausted};
ghost use Rattle.exhaust.specs.Stops.{ByRun, ByWatcher};
ghost use Rattle.exhaust.specs.Told.{ToldAll, ToldUpTo};
ghost use Rattle.exploring.specs.Lines.{Written};
ghost use Rattle.exploring.specs.Outcomes.{DeclinedAs, outcome_line};

use crate::lines::{write_refusal, write_report};
use console::Failed;
use exhaust::{Stopped, Watch, explore_all};
use filesystem::FileSystem;
use image::ImageStore;
use progress::Report;
use run::Run;
use std::alloc::Global;
use std::io::Write;

/// What came of an exploration: its report, or why there is none.
pub type Outcome = Result<Report, Stopped<Failed>>;

/// Explores every state of a recording over the image of a store, telling each to the watcher.
pub fn explore<S: ImageStore + Drop, F: FileSystem + Drop, W: Watch<Stop = Failed>>(
    heap: Global,
    base: S,
    fs: F,
    recording: &[u8],
    watch: &mut W,
) -> Outcome
    ensures declined { IfErr result (ByRun (λ refusal. DeclinedAs (subject_of F.FileSystem.LEAST (F.FileSystem.outcome fs) (S.ImageStore.sectors base)) recording.now (code_of refusal))) }
    ensures heard { IfOk result (λ report. ToldAll W.Watch.hears (subject_of F.FileSystem.LEAST (F.FileSystem.outcome fs) (S.ImageStore.sectors base)) recording.now watch.old watch.new) }
    ensures stopped { IfErr result (ByWatcher (λ stop. ToldUpTo W.Watch.hears (subject_of F.FileSystem.LEAST (F.FileSystem.outcome fs) (S.ImageStore.sectors base)) recording.now watch.old stop watch.new)) }
    ensures explored { IfOk result (λ report. Exhausted (subject_of F.FileSystem.LEAST (F.FileSystem.outcome fs) (S.ImageStore.sectors base)) recording.now (report_seen report)) }
{
    let mut run = Run::begin(heap, base, fs);
    let outcome = explore_all(&mut run, recording, watch);
    let _base = run.close();
    outcome
}

/// Writes the line of an exploration's report, or of its refusal.
#[tactic(auto, using(crate::proofs::Writing::nothing_written))]
pub fn write_outcome<W: Write>(out: &mut W, outcome: &Outcome) -> Result<(), Failed>
    ensures { OnOk result (Written (W.Write.contents out.old) (W.Write.contents out.new) (outcome_line outcome.now)) }
{
    match outcome {
        Ok(report) => write_report(out, report)?,
        Err(Stopped::Declined(refusal)) => write_refusal(out, refusal)?,
        Err(Stopped::Watcher(_)) => {}
    }
    Ok(())
}
