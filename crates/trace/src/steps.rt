//! The steps of a recording, one for each entry.
use mark::Mark;

/// Where the new contents of sectors come from.
#[derive(Clone, Copy, Debug)]
pub enum Source {
    /// Zeros.
    Zeros,
    /// The recording's data sectors from this number on.
    Data { from: u32 },
}

/// What an entry does: it writes so many sectors from `first` on, and says a mark.
#[derive(Clone, Copy, Debug)]
pub struct Step {
    pub flush: bool,
    pub fua: bool,
    pub first: usize,
    pub sectors: u32,
    pub source: Source,
    pub mark: Mark,
}

/// The steps of a recording, and its data sectors.
#[derive(Drop)]
pub struct Trace {
    pub steps: Vec<Step>,
    pub sectors: Vec<[u8; 512]>,
}
