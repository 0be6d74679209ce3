//! Why a recording is not replayed.
ghost use Rattle.std.specs.Prelude.{◌≡◌};
ghost use Rattle.patch.specs.Replayed.{code_of};

use recording::Refusal;
use thiserror::Error;

/// Why a recording is not replayed.
#[derive(Clone, Copy, PartialEq, Eq, Debug, Error)]
pub enum Declined {
    /// It is no recording.
    #[error("{0}")]
    Recording(Refusal),
    /// An entry touches a sector outside the image.
    #[error("entry {entry} touches a sector outside the image")]
    OutsideImage { entry: u64 },
}

impl Declined {
    // The rules number the conditions; nothing is generic over refusals, so no trait says `code` for all of them.
    /// The number and the place of this refusal.
    pub fn code(&self) -> (u64, u64)
        ensures { result ≡ code_of self.now }
    {
        match self {
            Declined::Recording(refusal) => refusal.code(),
            Declined::OutsideImage { entry } => (9, *entry),
        }
    }
}
