//! Why a history declines.
ghost use Rattle.std.specs.Prelude.{◌≡◌};
ghost use Rattle.history.specs.Refusals.{code_of};

use thiserror::Error;

/// Why a history declines to change.
#[derive(Clone, Copy, PartialEq, Eq, Debug, Error)]
pub enum Refusal {
    /// The cells are not 8.
    #[error("the history has not 8 cells")]
    Cells,
    /// The history holds 8 values already.
    #[error("the history holds 8 values already")]
    Full,
}

impl Refusal {
    /// The number and the place of this refusal.
    pub fn code(&self) -> (u32, u32)
        ensures { result ≡ code_of self.now }
    {
        // The rules number the conditions; nothing is generic over refusals, so no trait says `code` for all of them.
        match self {
            Refusal::Cells => (1, 0),
            Refusal::Full => (13, 0),
        }
    }
}
