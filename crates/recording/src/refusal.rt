//! Why a recording is declined.
ghost use Rattle.std.specs.Prelude.{◌≡◌};
ghost use Rattle.recording.specs.Refusals.{code_of};

use thiserror::Error;

/// Why a recording is declined; an entry is named by its number, from 1.
#[derive(Clone, Copy, PartialEq, Eq, Debug, Error)]
pub enum Refusal {
    /// Shorter than a sector, or a field or a zero of the head is wrong.
    #[error("it does not begin with a head sector of dm-log-writes version 1 with sectors of 512 bytes")]
    Head,
    /// More than 256 entries.
    #[error("it has more than 256 entries")]
    TooMany,
    /// An entry's sector or its data are not complete.
    #[error("it ends within the sector or the data of entry {entry}")]
    Incomplete { entry: u64 },
    /// An entry's sector breaks a rule.
    #[error("the fields, flags, text or zeros of entry {entry} break the rules")]
    Form { entry: u64 },
    /// Bytes follow the last entry.
    #[error("bytes follow its last entry")]
    Trailing,
}

impl Refusal {
    // The rules number the conditions; nothing is generic over refusals, so no trait says `code` for all of them.
    /// The number and the place of this refusal.
    pub fn code(&self) -> (u64, u64)
        ensures { result ≡ code_of self.now }
    {
        match *self {
            Refusal::Head => (5, 0),
            Refusal::TooMany => (6, 0),
            Refusal::Incomplete { entry } => (7, entry),
            Refusal::Form { entry } => (8, entry),
            Refusal::Trailing => (12, 0),
        }
    }
}
