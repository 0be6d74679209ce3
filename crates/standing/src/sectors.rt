//! The content of a number put onto a sector of an overlay.
ghost use Rattle.std.specs.Prelude.{◌≡◌};
ghost use Rattle.image.specs.Shown.{shown};
ghost use Rattle.trace.specs.Meaning.{recording_of};
ghost use Rattle.crash.specs.Rules.{written};
ghost use Rattle.standing.specs.Places.{replaced};

use image::{ImageStore, Overlay, fetch};
use trace::Trace;

// `below` relates the overlay before to the one after, which no type does.
/// Puts the content of a number onto a sector; without a whole content nothing changes.
pub(crate) fn put<S: ImageStore>(
    trace: &Trace,
    state: &mut Overlay<S>,
    sector: usize,
    number: usize,
)
    ensures below { state.new.below ≡ state.old.below }
    ensures image { shown S.ImageStore.sectors state.new ≡ replaced (shown S.ImageStore.sectors state.old) sector (written (recording_of (S.ImageStore.sectors state.old.below) trace.now) sector number) }
{
    // The base is read for number 0 alone, for speed: an entry's content is lent by the trace as it is.
    // A content that is not whole is refused, and then nothing changes: that is the answer here.
    let _answer = if number == 0 {
        let base = fetch(&state.below, sector);
        state.write(sector, &base)
    } else {
        state.write(sector, trace.content(&[], sector, number))
    };
}
