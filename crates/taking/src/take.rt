//! The recording read, and then its crash points checked.
ghost use Rattle.taking.specs.Taking.{Taken};

use crate::refusal::Refusal;
use image::ImageStore;
use loading::read_trace;
use points::check_points;
use std::alloc::Global;
use trace::Trace;

/// The recording in memory, for an image with the content of `base`, with every crash point within
/// the limits; or the first condition by which it is declined.
pub fn take_recording<S: ImageStore>(heap: Global, bytes: &[u8], base: &S) -> Result<Trace, Refusal>
    ensures { Taken bytes.now (S.ImageStore.sectors base.now) result }
{
    let trace = read_trace(heap, bytes, base)?;
    check_points(&trace, base)?;
    Ok(trace)
}
