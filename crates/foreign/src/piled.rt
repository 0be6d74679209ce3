//! A search through a pile of overlays.
ghost use Rattle.std.specs.Prelude.{◌≡◌, IfOk};
ghost use Rattle.image.specs.Shown.{shown};
ghost use Rattle.meaning.specs.Subjects.{subject_of};
ghost use Rattle.progress.specs.Reports.{report_seen};
ghost use Rattle.exhaust.specs.Exhausted.{Exhausted};

use exhaust::{Stopped, Watch, explore_all};
use filesystem::FileSystem;
use image::{ImageStore, Overlay};
use progress::Report;
use run::Run;
use std::alloc::Global;

/// Three overlays over a store.
pub type Pile<S> = Overlay<Overlay<Overlay<S>>>;

/// The store of a search, and what the search came to.
pub struct Searched<S, E> {
    pub store: S,
    pub found: Result<Report, Stopped<E>>,
}

/// Three overlays that hold nothing.
pub fn pile<S: ImageStore>(store: S) -> Pile<S>
    ensures below { result.below.below.below ≡ store }
    ensures same { shown (shown (shown S.sectors)) result ≡ S.sectors store }
{
    Overlay::over(Overlay::over(Overlay::over(store)))
}

/// Searches a recording over a pile of three overlays. The store comes back as it was, and the search
/// says of the pile what a search of the store says.
pub fn search_pile<S: ImageStore, F: FileSystem + Drop, W: Watch>(
    heap: Global,
    store: S,
    fs: F,
    recording: &[u8],
    watch: &mut W,
) -> Searched<S, W::Stop>
    ensures store { result.store ≡ store }
    ensures found { IfOk result.found (λ report. Exhausted (subject_of F.FileSystem.LEAST (F.FileSystem.outcome fs) (S.sectors store)) recording.now (report_seen report)) }
{
    let mut run = Run::begin(heap, pile(store), fs);
    let found = explore_all(&mut run, recording, watch);
    Searched {
        store: run.close().into_below().into_below().into_below(),
        found,
    }
}
