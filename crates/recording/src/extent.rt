//! Which sectors an entry touches, and which data it has.
ghost use Rattle.std.specs.Prelude.{◌≡◌, ℕ, ◌+◌, ◌&&◌, if◌then◌else◌, nat_lt};
ghost use Rattle.recording.specs.Items.{sector_of, sectors_of, data_of};
ghost use Rattle.recording.specs.Reading.{item_seen};

use crate::entry::{Entry, Header};
use image::SECTOR;

/// So many sectors, from the first on.
#[derive(Clone, Copy, PartialEq, Eq, Debug)]
pub struct Extent {
    pub first: u64,
    pub sectors: u64,
}

impl Extent {
    /// Whether one of these sectors lies outside an image of `count`.
    pub fn is_outside(self, count: u64) -> bool
        ensures { result ≡ nat_lt 0 self.sectors && nat_lt count (self.first + self.sectors) }
    {
        self.sectors > 0 && (self.first > count || self.sectors > count - self.first)
    }
}

impl<'a> Header<'a> {
    /// The sectors that the entry touches.
    pub fn extent(&self) -> Extent
        ensures first { result.first ≡ self.now.sector }
        ensures sectors { result.sectors ≡ self.now.sectors }
    {
        Extent {
            first: self.sector,
            sectors: self.sectors,
        }
    }

    /// How many sectors of data follow: a discard has none.
    pub fn data_sectors(&self) -> u64
        ensures { result ≡ (if self.now.flags.discard then 0 else self.now.sectors) }
    {
        if self.flags.discard { 0 } else { self.sectors }
    }
}

impl<'a> Entry<'a> {
    /// The sectors that the entry touches.
    pub fn extent(&self) -> Extent
        ensures first { result.first ≡ sector_of (item_seen self.now) }
        ensures sectors { result.sectors ≡ sectors_of (item_seen self.now) }
    {
        // No `From` leads from `usize` to `u64`; the cast is proved to lose no bit.
        let (first, sectors) = match *self {
            Entry::Write {
                sector,
                content,
                ..
            } => (sector, (content.len() / SECTOR) as u64),
            Entry::Discard {
                sector,
                sectors,
                ..
            } => (sector, sectors),
            Entry::Flush { sector, .. } => (sector, 0),
            Entry::Mark { .. } => (0, 0),
        };
        Extent { first, sectors }
    }

    /// The data of the entry: a write's content.
    pub fn data(&self) -> &'a [u8]
        ensures { result.now ≡ data_of (item_seen self.now) }
    {
        match *self {
            Entry::Write { content, .. } => content,
            _ => &[],
        }
    }
}
