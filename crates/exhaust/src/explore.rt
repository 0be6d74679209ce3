//! The search.
ghost use Rattle.std.specs.Prelude.{◌≡◌, IfOk, IfErr, Err};
ghost use Rattle.law.specs.Subject.{Subject};
ghost use Rattle.law.specs.History.{Ended, History};
ghost use Rattle.progress.specs.Reports.{report_seen};
ghost use Rattle.run.specs.declared.refusal.Refusal.{Refusal};
ghost use Rattle.run.specs.Seen.{Goes, Kept, Led, subject, view};
ghost use Rattle.run.specs.Typed.{loading};
ghost use Rattle.exhaust.specs.declared.watch.Stopped.TheVariants.{Declined};
ghost use Rattle.exhaust.specs.Exhausted.{Exhausted};
ghost use Rattle.exhaust.specs.Searched.{Searched};
ghost use Rattle.exhaust.specs.Stops.{ByWatcher};
ghost use Rattle.exhaust.specs.Told.{ToldAll, ToldUpTo};

use crate::watch::{Stopped, Watch};
use filesystem::FileSystem;
use image::ImageStore;
use progress::Report;
use run::Run;

/// No recording's list has more states: there are at most 257 points, of at most 1,048,576 states each.
pub const MOST_STATES_IN_ALL: u64 = 269_484_032;

/// Loads a recording into an Empty run, then gives and judges every state of the list, telling each
/// to the watcher; and reports. The search ends, nothing is forgone, and the report says safe
/// exactly where every permitted state of every crash point recovers to an admitted tree; else it
/// names the first unsafe state of the list. Whatever is answered, the run's history goes on by the
/// calls of the search alone.
pub fn explore_all<S: ImageStore, F: FileSystem, W: Watch>(
    run: &mut Run<S, F>,
    recording: &[u8],
    watch: &mut W,
) -> Result<Report, Stopped<W::Stop>>
    ensures kept { Kept run.old run.new }
    ensures declined { (f : Refusal) → result ≡ Err (Declined f) → Goes run.old (loading recording.now (Err f)) run.new }
    ensures went { (s : Subject) (h : History) → Led s h run.old → (k : History) × Led s k run.new × Searched W.Watch.hears h recording.now watch.old result watch.new k }
    ensures heard { IfOk result (λ report. ToldAll W.Watch.hears (subject run.old) recording.now watch.old watch.new) }
    ensures stopped { IfErr result (ByWatcher (λ stop. ToldUpTo W.Watch.hears (subject run.old) recording.now watch.old stop watch.new)) }
    ensures ended { IfOk result (λ _. (view run.new).condition ≡ Ended) }
    ensures explored { (s : Subject) (h : History) → Led s h run.old → IfOk result (λ report. Exhausted s recording.now (report_seen report)) }
{
    run.load(recording)?;
    // One advance more than there are states finds the end.
    for _ in 0..=MOST_STATES_IN_ALL {
        let Some((point, rank)) = run.advance().unwrap() else {
            return Ok(run.report());
        };
        let found = run.judge().unwrap();
        if let Err(stop) = watch.judged(point, rank, found) {
            return Err(Stopped::Watcher(stop));
        }
    }
    unreachable!()
}
