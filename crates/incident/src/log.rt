//! A recording that is made in memory.
use image::SECTOR;
use std::alloc::{AllocError, Global};
use std::iter::repeat_n;

/// The flag of a flush.
const FLUSH: u64 = 1;

/// The flag of a mark.
const MARK: u64 = 8;

/// A recording that is made: the bytes of its entries, and how many there are.
#[derive(Drop)]
pub struct Log {
    heap: Global,
    entries: Vec<u8>,
    count: u64,
}

/// Fills up a sector with zeros.
fn fill_up(row: &mut Vec<u8>, used: usize) -> Result<(), AllocError> {
    row.extend(repeat_n(0, SECTOR.saturating_sub(used)))
}

impl Log {
    /// A recording of no entries.
    pub fn new(heap: Global) -> Log {
        Log {
            heap,
            entries: Vec::new(heap),
            count: 0,
        }
    }

    /// Adds an entry's sector.
    fn push(
        &mut self,
        sector: u64,
        sectors: u64,
        flags: u64,
        text: &[u8],
    ) -> Result<(), AllocError> {
        let row = &mut self.entries;
        // No `From` leads from `usize` to `u64`.
        for number in [sector, sectors, flags, text.len() as u64] {
            row.extend_from_slice(&number.to_le_bytes())?;
        }
        row.extend_from_slice(text)?;
        fill_up(row, text.len().saturating_add(32))?;
        self.count = self.count.saturating_add(1);
        Ok(())
    }

    /// Adds a write of one sector, which begins with these bytes.
    pub fn write(&mut self, sector: u64, content: &[u8]) -> Result<(), AllocError> {
        self.push(sector, 1, 0, b"")?;
        self.entries.extend_from_slice(content)?;
        fill_up(&mut self.entries, content.len())
    }

    /// Adds a flush.
    pub fn flush(&mut self) -> Result<(), AllocError> {
        self.push(0, 0, FLUSH, b"")
    }

    /// Adds a mark.
    pub fn mark(&mut self, text: &[u8]) -> Result<(), AllocError> {
        self.push(0, 0, MARK, text)
    }

    /// The recording.
    pub fn finish(self) -> Result<Vec<u8>, AllocError> {
        let mut bytes = Vec::new(self.heap);
        bytes.extend_from_slice(b"rhswfsj\0")?;
        bytes.extend_from_slice(&1u64.to_le_bytes())?;
        bytes.extend_from_slice(&self.count.to_le_bytes())?;
        bytes.extend_from_slice(&512u32.to_le_bytes())?;
        fill_up(&mut bytes, 28)?;
        bytes.extend_from_slice(self.entries.as_slice())?;
        Ok(bytes)
    }
}
