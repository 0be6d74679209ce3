//! The calls made.
ghost use Rattle.std.specs.Prelude.{◌≡◌};
ghost use Rattle.law.specs.Subject.{Subject};
ghost use Rattle.law.specs.History.{History, begun as nothingCalled, then, reported};
ghost use Rattle.law.specs.Law.{Law};
ghost use Rattle.meaning.specs.Subjects.{subject_of};
ghost use Rattle.progress.specs.Reports.{report_seen};
ghost use Rattle.run.specs.Seen.{Kept, Led};
ghost use Rattle.work.specs.Talks.{Talk, Stops, history_after};

use crate::caller::Caller;
use filesystem::FileSystem;
use image::ImageStore;
use progress::Report;
use run::Run;
use std::alloc::Global;

/// Makes the calls that the caller chooses, until it has no more or so many are made. Whatever
/// history led here, it goes on by what the caller said and heard.
pub fn work<'a, S: ImageStore, F: FileSystem, C: Caller<'a>>(
    run: &mut Run<S, F>,
    caller: &mut C,
    budget: u64,
)
    ensures kept { Kept run.old run.new }
    ensures told { (s : Subject) (h : History) → Led s h run.old → (t : Talk) × Led s (history_after h t) run.new × Stops C.Caller.says caller.old budget t caller.new }
{
    let mut last = None;
    for _ in 0..budget {
        let Some(call) = caller.next(last) else {
            return;
        };
        last = Some(run.call(call));
    }
}

/// A whole run, from its beginning to its end, under any caller: the store comes back as it was,
/// and the law holds of all that the caller said and heard, and of the report.
pub fn whole_run<'a, S: ImageStore, F: FileSystem + Drop, C: Caller<'a>>(
    heap: Global,
    store: S,
    fs: F,
    caller: &mut C,
    budget: u64,
) -> (S, Report)
    ensures store { result.0 ≡ store }
    ensures lawful { (t : Talk) × Stops C.Caller.says caller.old budget t caller.new × Law (subject_of F.FileSystem.LEAST (F.FileSystem.outcome fs) (S.ImageStore.sectors store)) (then (history_after nothingCalled t) (reported (report_seen result.1))) (S.ImageStore.sectors result.0) }
{
    let mut run = Run::begin(heap, store, fs);
    work(&mut run, caller, budget);
    let report = run.report();
    (run.close(), report)
}
