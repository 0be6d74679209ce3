//! Candidates with equal contents, of which the first alone stays.
ghost use Rattle.std.specs.Prelude.{◌≡◌};
ghost use Rattle.crash.specs.Lists.{firsts};
ghost use Rattle.trace.specs.Meaning.{effects_of, content_at, recording_of};
ghost use Rattle.candidates.specs.Lists.{listed};
ghost use Rattle.candidates.specs.Gathering.{repeated as is_repeated_at, Found};

use crate::eight::Few;
use crate::refusal::Refusal;
use crate::sectors::gather;
use image::{ImageStore, fetch};
use trace::Trace;

// Trace, base and sector name a content, here and in `standing`. A closure from number to content would bring a type
// parameter and a `requires` into both functions here, and a struct would be made for one call.
/// Whether the content of a number equals that of one of the numbers before it.
fn is_repeated(trace: &Trace, base: &[u8], sector: usize, earlier: &[usize], number: usize) -> bool
    ensures { result ≡ is_repeated_at (content_at base.now (effects_of trace.now) sector) earlier.now number }
{
    let content = trace.content(base, sector, number);
    earlier
        .iter()
        .any(|k| trace.content(base, sector, *k) == content)
}

/// Leaves out each number whose content equals that of an earlier one; `base` is the sector's
/// content in the base image.
pub fn leave_out(trace: &Trace, base: &[u8], sector: usize, numbers: &Few<usize>) -> Few<usize>
    ensures { listed result ≡ firsts (content_at base.now (effects_of trace.now) sector) (listed numbers.now) }
{
    let all = numbers.values();
    let mut stay = Few::empty(0);
    for (i, number) in all.iter().enumerate() {
        if !is_repeated(trace, base, sector, &all[..i], *number) {
            stay.push(*number);
        }
    }
    stay
}

/// The numbers of a sector's candidates at a point, equal contents left out.
pub fn candidates_of<S: ImageStore>(
    trace: &Trace,
    base: &S,
    sector: usize,
    point: usize,
) -> Result<Few<usize>, Refusal>
    ensures { Found (recording_of (S.ImageStore.sectors base.now) trace.now) point sector result }
{
    if sector >= base.count() {
        return Err(Refusal::SectorNumber);
    }
    let content = fetch(base, sector);
    let numbers = gather(trace, sector, point)?;
    Ok(leave_out(trace, &content, sector, &numbers))
}
