//! Why an image holds no tree.
ghost use Rattle.std.specs.Prelude.{◌≡◌};
ghost use Rattle.filesystem.specs.Outcomes.{code_of};

use thiserror::Error;

/// Why an image holds no tree. The faults that the file systems share have cases of their own,
/// so that code and proofs match on them; `Other` is for a file system that has more.
#[derive(Clone, Copy, PartialEq, Eq, Debug, Error)]
pub enum Fault {
    /// Too few sectors, or word 0 of sector 0 is not the format's.
    #[error("too few sectors, or another format in sector 0")]
    Format,
    /// Word 1 of sector 0 is not the number of sectors.
    #[error("sector 0 names another number of sectors")]
    Count,
    /// Word 2 of sector 0 is no sequence number.
    #[error("sector 0 has no sequence number")]
    Sequence,
    /// A node's word breaks a rule; no lower node's does.
    #[error("the word of node {node} breaks a rule")]
    NodeWord { node: u8 },
    /// A fault of another file system.
    #[error("fault {number} at {place}")]
    Other { number: u32, place: u32 },
}

impl Fault {
    // The rules number the faults; nothing is generic over what has a number, so no trait says `code`.
    /// The fault's number and its place.
    pub fn code(&self) -> (u32, u32)
        ensures { result ≡ code_of self.now }
    {
        match *self {
            Fault::Format => (1, 0),
            Fault::Count => (2, 0),
            Fault::Sequence => (3, 0),
            Fault::NodeWord { node } => (4, u32::from(node)),
            Fault::Other { number, place } => (number, place),
        }
    }
}
