//! Why a program ends with status 1.
ghost use Rattle.std.specs.Prelude.{◌≡◌};
ghost use Rattle.console.specs.declared.failed.Failed.TheVariants.{Memory, Output};

use std::alloc::{AllocError, AllocFailed};
use std::io;

/// Why a program ends with status 1.
#[derive(Drop, Debug)]
pub enum Failed {
    /// The reason is on standard error already.
    Said,
    /// No memory is left.
    Memory,
    /// Output could not be written.
    Output,
}

// By hand, as the next two: what failed below is not kept, and a derived `From` keeps it.
impl From<AllocError> for Failed {
    ghost from_gives = { λ _ failed. failed ≡ Memory };

    fn from(_e: AllocError) -> Failed {
        Failed::Memory
    }
}

impl<T: Drop> From<AllocFailed<T>> for Failed {
    ghost from_gives = { λ _ failed. failed ≡ Memory };

    fn from(_e: AllocFailed<T>) -> Failed {
        Failed::Memory
    }
}

impl From<io::Error> for Failed {
    ghost from_gives = { λ _ failed. failed ≡ Output };

    fn from(_e: io::Error) -> Failed {
        Failed::Output
    }
}
