//! Why candidates or states are declined.
ghost use Rattle.std.specs.Prelude.{◌≡◌};
ghost use Rattle.candidates.specs.Refusals.{code_of};

use thiserror::Error;

/// Why the candidates or the states of a point are declined.
#[derive(Clone, Copy, PartialEq, Eq, Debug, Error)]
pub enum Refusal {
    /// The sector's number is not below the image's count.
    #[error("the sector lies outside the image")]
    SectorNumber,
    /// A sector or a node has more than 8 candidates, equal ones counted.
    #[error("a sector or a node has more than 8 candidates at point {point}")]
    Candidates { point: usize },
    /// There are more than 1,048,576 states.
    #[error("point {point} has more than 1048576 states")]
    States { point: usize },
}

impl Refusal {
    /// The number and the place of this refusal.
    pub fn code(&self) -> (u64, u64)
        ensures { result ≡ code_of self.now }
    {
        // The rules number the conditions; nothing is generic over refusals, so no trait says `code` for all of them.
        // `u64` has no `From<usize>`.
        match self {
            Refusal::SectorNumber => (2, 0),
            Refusal::Candidates { point } => (13, *point as u64),
            Refusal::States { point } => (14, *point as u64),
        }
    }
}
