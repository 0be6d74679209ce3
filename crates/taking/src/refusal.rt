//! Why a recording is not taken.
ghost use Rattle.std.specs.Prelude.{◌≡◌};
ghost use Rattle.taking.specs.Taking.{code_of};
ghost use Rattle.taking.specs.declared.refusal.Refusal.TheVariants.{Reading, Points};

use thiserror::Error;

/// Why a recording is not taken.
#[derive(Clone, Copy, PartialEq, Eq, Debug, Error)]
pub enum Refusal {
    /// It is not read into memory.
    #[error("{0}")]
    Reading(loading::Refusal),
    /// A crash point is beyond the limits.
    #[error("{0}")]
    Points(candidates::Refusal),
}

impl Refusal {
    // The rules number the conditions; nothing is generic over refusals, so no trait says `code` for all of them.
    /// The number and the place of this refusal; want of memory has none.
    pub fn code(&self) -> Option<(u64, u64)>
        ensures { result ≡ code_of self.now }
    {
        match *self {
            Refusal::Reading(refusal) => refusal.code(),
            Refusal::Points(refusal) => Some(refusal.code()),
        }
    }
}

// By hand, as the next: a derived `From` has no contract, and clauses name the case.
impl From<loading::Refusal> for Refusal {
    ghost from_gives = { λ f r. r ≡ Reading f };

    fn from(refusal: loading::Refusal) -> Refusal {
        Refusal::Reading(refusal)
    }
}

impl From<candidates::Refusal> for Refusal {
    ghost from_gives = { λ f r. r ≡ Points f };

    fn from(refusal: candidates::Refusal) -> Refusal {
        Refusal::Points(refusal)
    }
}
