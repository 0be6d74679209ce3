//! The reader: it opens a recording and goes through it entry by entry.
ghost use Rattle.std.specs.Prelude.{◌≡◌, ℕ, ◌+◌, ◌-◌, ◌^◌, ◌<◌, ◌≤◌, length};
ghost use Rattle.recording.specs.Heads.{head_faulty};
ghost use Rattle.recording.specs.Reading.{ahead, next_number, Opening, HeaderFinding, Finding, FindingLaid, Heading, Stepping, Laid, Ending, item_seen, item_made, LiesFrom};

use crate::entry::{Entry, Found, Header, Reader};
use crate::fields::{field, number64, zeros};
use crate::form::Fields;
use crate::refusal::Refusal;
use image::SECTOR;

/// The most entries of a recording.
const MOST_ENTRIES: u64 = 256;

/// Whether the recording is shorter than a sector, or its head is wrong.
fn is_head_faulty(bytes: &[u8]) -> bool
    ensures { result ≡ head_faulty bytes.now }
{
    bytes.len() < SECTOR
        || field(bytes, 0) != *b"rhswfsj\0"
        || number64(bytes, 8) != 1
        || u32::from_le_bytes(field(bytes, 24)) != 512
        || !zeros(&bytes[28..SECTOR])
}

// Front, place and number, here and in the next two, are all the reader's; but the definitions speak of no reader,
// and a method would take the three apart first.
/// The header of entry `number`, at the front of `rest`.
fn header_at<'a>(rest: &'a [u8], number: u64) -> Result<Header<'a>, Refusal>
    ensures { HeaderFinding number rest.now result }
{
    if rest.len() < SECTOR {
        return Err(Refusal::Incomplete { entry: number });
    }
    let fields = Fields::read(rest).ok_or(Refusal::Form { entry: number })?;
    Ok(Header {
        sector: fields.sector,
        sectors: fields.sectors,
        flags: fields.flags(),
        text: &rest[32..32 + fields.size],
    })
}

/// The entry of a header, with its data; its sector lies at `start`.
// With header and flags taken apart first it would be longer than 40 lines.
fn entry_of<'a>(header: Header<'a>, content: &'a [u8], start: usize) -> Entry<'a>
    requires { start + 512 < 2 ^ 64 }
    ensures item { item_seen result ≡ item_made header.entry content.now }
    ensures place { LiesFrom start result }
{
    if header.flags.mark {
        return Entry::Mark {
            text: header.text,
            place: start + 32,
        };
    }
    if header.sectors == 0 {
        return Entry::Flush {
            sector: header.sector,
            fua: header.flags.fua,
            discard: header.flags.discard,
            metadata: header.flags.metadata,
        };
    }
    if header.flags.discard {
        return Entry::Discard {
            sector: header.sector,
            sectors: header.sectors,
            flush: header.flags.flush,
            metadata: header.flags.metadata,
        };
    }
    Entry::Write {
        sector: header.sector,
        flush: header.flags.flush,
        fua: header.flags.fua,
        metadata: header.flags.metadata,
        content,
        place: start + SECTOR,
    }
}

/// Entry `number`, at the front of `rest`, which begins at `start`.
fn entry_at<'a>(rest: &'a [u8], start: usize, number: u64) -> Result<Found<'a>, Refusal>
    requires { start + length rest.now < 2 ^ 64 }
    ensures found { Finding start number rest.now result }
    ensures laid { FindingLaid rest.now result }
{
    let header = header_at(rest, number)?;
    // No `From` leads from `u64` to `usize`; the cast is proved to lose no bit.
    let sectors = header.data_sectors() as usize;
    let whole = (rest.len() - SECTOR) / SECTOR;
    if sectors > whole {
        return Err(Refusal::Incomplete { entry: number });
    }
    let size = SECTOR + sectors * SECTOR;
    let entry = entry_of(header, &rest[SECTOR..size], start);
    Ok(Found { entry, size })
}

impl<'a> Reader<'a> {
    /// A reader at the first entry.
    pub fn open(bytes: &'a [u8]) -> Result<Reader<'a>, Refusal>
        ensures { Opening bytes.now result }
    {
        if is_head_faulty(bytes) {
            return Err(Refusal::Head);
        }
        let total = number64(bytes, 16);
        if total > MOST_ENTRIES {
            return Err(Refusal::TooMany);
        }
        Ok(Reader {
            bytes,
            place: SECTOR,
            total,
            left: total,
        })
    }

    /// How many entries were taken: the number of the last one.
    pub fn taken(&self) -> u64
        ensures { result ≡ self.now.total - self.now.left }
    {
        self.total - self.left
    }

    /// The number of the next entry.
    fn next_number(&self) -> u64
        requires { 0 < self.now.left }
        ensures { result ≡ next_number self.now }
    {
        self.taken() + 1
    }

    /// What is left of the recording.
    fn rest(&self) -> &'a [u8]
        ensures { result.now ≡ ahead self.now }
    {
        &self.bytes[self.place..]
    }

    /// Whether no entry is left; bytes that follow the last one are declined.
    fn is_at_end(&self) -> Result<bool, Refusal>
        ensures { Ending self.now result }
    {
        if self.left > 0 {
            return Ok(false);
        }
        if !self.rest().is_empty() {
            return Err(Refusal::Trailing);
        }
        Ok(true)
    }

    /// What the next entry's sector says; its data are not looked at, and the place stays.
    pub fn header(&self) -> Result<Option<Header<'a>>, Refusal>
        ensures { Heading self.now result }
    {
        if self.is_at_end()? {
            return Ok(None);
        }
        let header = header_at(self.rest(), self.next_number())?;
        Ok(Some(header))
    }

    /// The next entry, and the place moves behind it. Where it declines, the place stays.
    pub fn next(&mut self) -> Result<Option<Entry<'a>>, Refusal>
        ensures step { Stepping self.old self.new result }
        ensures laid { Laid self.old self.new result }
    {
        if self.is_at_end()? {
            return Ok(None);
        }
        let ahead = self.rest();
        let found = entry_at(ahead, self.place, self.next_number())?;
        self.place += found.size;
        self.left -= 1;
        Ok(Some(found.entry))
    }
}
