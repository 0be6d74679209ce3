//! Why a store declines.
ghost use Rattle.std.specs.Prelude.{◌≡◌};
ghost use Rattle.image.specs.Refusals.{code_of};

use thiserror::Error;

/// Why a store declines to read or write a sector.
#[derive(Clone, Copy, PartialEq, Eq, Debug, Error)]
pub enum Refusal {
    /// The buffer has not 512 bytes.
    #[error("the buffer has not 512 bytes")]
    BufferLength,
    /// The sector's number is not below the store's count.
    #[error("the sector lies outside the image")]
    SectorNumber,
}

impl Refusal {
    // The rules number the conditions; nothing is generic over refusals, so no trait says `code` for all of them.
    /// The number and the place of this refusal.
    pub fn code(&self) -> (u32, u32)
        ensures { result ≡ code_of self.now }
    {
        match self {
            Refusal::BufferLength => (1, 0),
            Refusal::SectorNumber => (2, 0),
        }
    }
}
