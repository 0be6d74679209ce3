//! Sectors within a row of bytes.
ghost use Rattle.std.specs.Prelude.{◌≡◌, ◌+◌, ◌*◌, ◌≤◌, length};
ghost use Rattle.image.specs.Sectors.{sector_at, put, Bytes};

use crate::SECTOR;

/// Each number of a row is a byte.
pub fn is_row(row: &[u8])
    ensures { Bytes row.now }
{}

// Slices, here and below: they are the caller's own buffers, and `access` has asked for their length.
/// Fills `sector` with sector `n` of a row.
pub fn get_sector(row: &[u8], n: usize, sector: &mut [u8])
    requires inside { 512 * n + 512 ≤ length row.now }
    requires whole { length sector.old ≡ 512 }
    ensures { sector.new ≡ sector_at row.now n }
{
    let start = SECTOR * n;
    sector.copy_from_slice(&row[start..start + SECTOR]);
}

/// Writes `sector` over sector `n` of a row.
pub fn put_sector(row: &mut [u8], n: usize, sector: &[u8])
    requires inside { 512 * n + 512 ≤ length row.old }
    requires whole { length sector.now ≡ 512 }
    ensures { row.new ≡ put row.old n sector.now }
{
    let start = SECTOR * n;
    row[start..start + SECTOR].copy_from_slice(sector);
}
