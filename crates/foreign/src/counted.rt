//! A store that the library does not know.
ghost use Rattle.std.specs.Prelude.{◌≡◌, ◌+◌, ◌*◌, ◌≤◌, replicate, length, is_ok, if◌then◌else◌, slice_set};
ghost use Rattle.std.proofs.Math.Nat.{le_refl, le_trans};
ghost use Rattle.image.specs.Sectors.{put, sector_at, Bytes};
ghost use Rattle.image.specs.Refusals.{access};
ghost use Rattle.foreign.specs.Counts.{counted};
ghost use Rattle.foreign.specs.Own.{own};

use image::{ImageStore, Refusal, SECTOR};

/// How many sectors it has.
pub const SECTORS: usize = 8;

/// Eight sectors of its own, and a count of the writes that it accepted.
#[derive(Drop)]
pub struct Counted {
    cells: [u8; SECTOR * SECTORS],
    writes: u64,
}

impl Counted {
    /// Sectors full of one byte, and no write yet.
    pub fn new(fill: u8) -> Counted
        ensures cells { result.cells ≡ replicate 4096 fill }
        ensures writes { result.writes ≡ 0 }
    {
        Counted {
            cells: [fill; SECTOR * SECTORS],
            writes: 0,
        }
    }

    /// How many writes were accepted, up to the most that a `u64` counts.
    pub fn writes(&self) -> u64
        ensures { result ≡ self.now.writes }
    {
        self.writes
    }
}

impl ImageStore for Counted {
    ghost sectors = { λ s. own s.cells };

    // The count never falls.
    ghost keeps = { λ s t. s.writes ≤ t.writes };

    ghost stays = { λ s. le_refl s.writes };

    ghost onward = { λ s t u p q. le_trans p q };

    #[tactic(auto, using(crate::specs::Own::own_count, crate::specs::Own::own_shaped))]
    fn count(&self) -> usize {
        is_row(&self.cells);
        SECTORS
    }

    #[tactic(auto, using(crate::specs::Own::own_count, crate::specs::Own::own_at))]
    fn read(&self, n: usize, buffer: &mut [u8]) -> Result<(), Refusal> {
        asks(buffer.len(), n)?;
        get_sector(&self.cells, n, buffer);
        Ok(())
    }

    // Beyond the store's contract: an accepted write is counted.
    #[tactic(auto, using(crate::specs::Own::own_count, crate::specs::Own::own_put))]
    fn write(&mut self, n: usize, buffer: &[u8]) -> Result<(), Refusal>
        ensures answer { result ≡ access (length buffer.now) n (length (own self.old.cells)) }
        ensures after { own self.new.cells ≡ (if is_ok result then slice_set (own self.old.cells) n buffer.now else own self.old.cells) }
        ensures kept { self.old.writes ≤ self.new.writes }
        ensures count { self.new.writes ≡ (if is_ok result then counted self.old.writes else self.old.writes) }
    {
        asks(buffer.len(), n)?;
        put_sector(&mut self.cells, n, buffer);
        self.writes = self.writes.saturating_add(1);
        Ok(())
    }
}

/// Each number of a row is a byte.
fn is_row(row: &[u8])
    ensures { Bytes row.now }
{}

/// Whether a call for sector `n` with a buffer of `size` bytes is accepted.
fn asks(size: usize, n: usize) -> Result<(), Refusal>
    ensures { result ≡ access size n 8 }
{
    if size != SECTOR {
        return Err(Refusal::BufferLength);
    }
    if n >= SECTORS {
        return Err(Refusal::SectorNumber);
    }
    Ok(())
}

/// Fills `sector` with sector `n` of a row.
fn get_sector(row: &[u8], n: usize, sector: &mut [u8])
    requires inside { 512 * n + 512 ≤ length row.now }
    requires whole { length sector.old ≡ 512 }
    ensures { sector.new ≡ sector_at row.now n }
{
    let start = SECTOR * n;
    sector.copy_from_slice(&row[start..start + SECTOR]);
}

/// Writes `sector` over sector `n` of a row.
fn put_sector(row: &mut [u8], n: usize, sector: &[u8])
    requires inside { 512 * n + 512 ≤ length row.old }
    requires whole { length sector.now ≡ 512 }
    ensures { row.new ≡ put row.old n sector.now }
{
    let start = SECTOR * n;
    row[start..start + SECTOR].copy_from_slice(sector);
}
