//! Why a text is no script.
ghost use Rattle.std.specs.Prelude.{◌≡◌};
ghost use Rattle.script.specs.declared.refusal.Refusal.TheVariants.{Memory};

use std::alloc::AllocFailed;
use thiserror::Error;

/// Why a text is not read as a script.
#[derive(Clone, Copy, PartialEq, Eq, Debug, Error)]
pub enum Refusal {
    /// A line, counted from 1, spells no call.
    #[error("line {line} is no call")]
    NoCall { line: usize },
    /// No memory is left.
    #[error("no memory is left")]
    Memory,
}

// By hand: what failed below is not kept, and a derived `From` keeps it.
impl<T: Drop> From<AllocFailed<T>> for Refusal {
    ghost from_gives = { λ _ r. r ≡ Memory };

    fn from(_: AllocFailed<T>) -> Refusal {
        Refusal::Memory
    }
}
