//! Sums of words, modulo 2^30.
ghost use Rattle.std.specs.Prelude.{◌≡◌, ◌+◌, ◌%◌, ◌^◌, ◌≤◌};
ghost use Rattle.journalled.specs.Journal.{word_sum, journal_sum};

use filesystem::{rest_of, word_at};
use image::{ImageStore, SECTOR, fetch};

/// A sum with a word more, modulo 2^30.
fn add(sum: u32, word: u32) -> u32
    ensures { result ≡ (sum + word) % 2 ^ 30 }
{
    rest_of(sum.wrapping_add(word))
}

/// The sum of a sector's words.
fn sector_sum(sector: &[u8; SECTOR]) -> u32
    ensures { result ≡ word_sum sector.now % 2 ^ 30 }
{
    (0..128).map(|i| word_at(sector, i)).fold(0, add)
}

/// The sum of the words of sectors 2 to 2 + `size`.
pub fn journal_sum<S: ImageStore>(image: &S, size: usize) -> u32
    requires { size ≤ 6 }
    ensures { result ≡ journal_sum (S.sectors image.now) size % 2 ^ 30 }
{
    (2..size + 3)
        .map(|n| sector_sum(&fetch(image, n)))
        .fold(0, add)
}
