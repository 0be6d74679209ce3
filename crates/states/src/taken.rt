//! A recording in memory, over its base.
ghost use Rattle.taking.specs.Taking.{Fit};

use console::{Failed, Program};
use image::ImageStore;
use taking::take_recording;
use trace::Trace;

/// A recording in memory, over its base: every crash point is within the limits.
#[derive(Drop)]
pub struct Taken<S: ImageStore> {
    pub trace: Trace,
    pub base: S,
    pub ghost fit: { Fit (S.ImageStore.sectors base) trace },
}

impl<S: ImageStore + Drop> Taken<S> {
    /// The recording of these bytes, with the reason said where it is declined.
    pub fn read(program: &Program, bytes: &[u8], base: S) -> Result<Taken<S>, Failed> {
        let trace = take_recording(program.rt.alloc(), bytes, &base).map_err(
            |why| match why.code() {
                Some(code) => program.declined(code, why),
                None => Failed::Memory,
            },
        )?;
        Ok(Taken { trace, base })
    }
}
