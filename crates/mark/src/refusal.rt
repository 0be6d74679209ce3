//! Why a text is no mark.
ghost use Rattle.std.specs.Prelude.{◌≡◌};
ghost use Rattle.mark.specs.Refusals.{code_of};

use thiserror::Error;

/// Why the reader declines a text.
#[derive(Clone, Copy, PartialEq, Eq, Debug, Error)]
pub enum Refusal {
    /// No mark spells the text.
    #[error("the text is no mark")]
    NoMark,
}

impl Refusal {
    // The rules number the conditions; nothing is generic over refusals, so no trait says `code` for all of them.
    /// The number of this refusal; its place is the number of the entry, which the caller knows.
    pub fn code(&self) -> u32
        ensures { result ≡ code_of self.now }
    {
        match self {
            Refusal::NoMark => 10,
        }
    }
}
