//! Entries of a recording, as parts of its bytes.
ghost use Rattle.std.specs.Prelude.{◌≡◌, ◌≤◌, length};

/// The flags of an entry.
#[derive(Clone, Copy, PartialEq, Eq, Debug)]
pub struct Flags {
    pub flush: bool,
    pub fua: bool,
    pub discard: bool,
    pub mark: bool,
    pub metadata: bool,
}

/// What an entry's sector says, before its data are looked at.
#[derive(Clone, Copy, Debug)]
pub struct Header<'a> {
    pub sector: u64,
    pub sectors: u64,
    pub flags: Flags,
    pub text: &'a [u8],
}

/// An entry. Content and text are the recording's own bytes, from `place` on.
#[derive(Clone, Copy, Debug)]
pub enum Entry<'a> {
    /// New bytes for the sectors from `sector` on.
    Write {
        sector: u64,
        flush: bool,
        fua: bool,
        metadata: bool,
        content: &'a [u8],
        place: usize,
    },
    /// Zeros for so many sectors from `sector` on.
    Discard {
        sector: u64,
        sectors: u64,
        flush: bool,
        metadata: bool,
    },
    /// A flush that touches no sector, whatever sector it names.
    Flush {
        sector: u64,
        fua: bool,
        discard: bool,
        metadata: bool,
    },
    /// A mark.
    Mark {
        text: &'a [u8],
        place: usize,
    },
}

/// A reader: a recording, the place of the next entry, how many entries the head tells, and how
/// many of them are left.
#[derive(Clone, Copy, Debug)]
pub struct Reader<'a> {
    pub(crate) bytes: &'a [u8],
    pub(crate) place: usize,
    pub(crate) total: u64,
    pub(crate) left: u64,
    pub ghost within: { place ≤ length bytes.now },
    pub ghost ordered: { left ≤ total },
}

impl<'a> Reader<'a> {
    /// Where the next entry begins.
    pub fn place(&self) -> usize
        ensures { result ≡ self.now.place }
    {
        self.place
    }

    /// How many entries the head tells.
    pub fn total(&self) -> u64
        ensures { result ≡ self.now.total }
    {
        self.total
    }

    /// How many entries are left.
    pub fn left(&self) -> u64
        ensures { result ≡ self.now.left }
    {
        self.left
    }
}

/// An entry, and how many bytes its sector and data have.
#[derive(Clone, Copy, Debug)]
pub struct Found<'a> {
    pub entry: Entry<'a>,
    pub size: usize,
}
