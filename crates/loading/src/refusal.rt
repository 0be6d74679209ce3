//! Why a recording is not read into memory.
ghost use Rattle.std.specs.Prelude.{◌≡◌};
ghost use Rattle.loading.specs.Loading.{code_of};
ghost use Rattle.loading.specs.declared.refusal.Refusal.TheVariants.{Recording, Memory};

use std::alloc::AllocError;
use thiserror::Error;

/// Why a recording is not read into memory; an entry is named by its number, from 1.
#[derive(Clone, Copy, PartialEq, Eq, Debug, Error)]
pub enum Refusal {
    /// It is no recording.
    #[error("{0}")]
    Recording(recording::Refusal),
    /// A mark's text is empty or of no form.
    #[error("the text of entry {entry} is no mark")]
    NoMark { entry: u64 },
    /// An entry touches a sector outside the image.
    #[error("entry {entry} touches a sector outside the image")]
    Outside { entry: u64 },
    /// More than 96 data sectors up to this entry.
    #[error("up to entry {entry} there are more than 96 sectors of data")]
    TooMuchData { entry: u64 },
    /// No memory is left.
    #[error("no memory is left")]
    Memory,
}

impl Refusal {
    // The rules number the conditions; nothing is generic over refusals, so no trait says `code` for all of them.
    /// The number and the place of this refusal; want of memory has none.
    pub fn code(&self) -> Option<(u64, u64)>
        ensures { result ≡ code_of self.now }
    {
        match *self {
            Refusal::Recording(refusal) => Some(refusal.code()),
            Refusal::NoMark { entry } => Some((10, entry)),
            Refusal::Outside { entry } => Some((9, entry)),
            Refusal::TooMuchData { entry } => Some((11, entry)),
            Refusal::Memory => None,
        }
    }
}

// By hand: a derived `From` has no contract, and clauses name the case.
impl From<recording::Refusal> for Refusal {
    ghost from_gives = { λ f r. r ≡ Recording f };

    fn from(refusal: recording::Refusal) -> Refusal {
        Refusal::Recording(refusal)
    }
}

// By hand: a derived `From` keeps what failed, and `Memory` has no field.
impl From<AllocError> for Refusal {
    ghost from_gives = { λ _ r. r ≡ Memory };

    fn from(_: AllocError) -> Refusal {
        Refusal::Memory
    }
}
