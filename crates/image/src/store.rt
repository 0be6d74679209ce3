//! What a store of sectors is.
ghost use Rattle.std.specs.Prelude.{◌≡◌, ℕ, ◌<◌, ◌≤◌, max, List, [], length, is_ok, if◌then◌else◌, slice_index_or, slice_set};
ghost use Rattle.image.specs.Sectors.{Image, Shaped};
ghost use Rattle.image.specs.Refusals.{access};
ghost use Rattle.image.specs.Fetched.{sector_of};

use crate::SECTOR;
use crate::refusal::Refusal;

/// A list of at most 64 sectors of 512 bytes, numbered from 0.
pub trait ImageStore {
    // The sectors that the store means.
    ghost sectors: { Self → Image };

    // What no write through this store changes. Each function that writes says it in a clause, of an overlay as
    // `below`, since no type relates a store before a call to the store after it.
    ghost keeps: { Self → Self → Type 0 };

    ghost stays: { (s : Self) → keeps s s };

    ghost onward: { (s t u : Self) → keeps s t → keeps t u → keeps s u };

    /// How many sectors there are.
    fn count(&self) -> usize
        ensures number { result ≡ length (sectors self.now) }
        ensures few { result ≤ 64 }
        // No law: of a value in a law it is not known that its bytes are below 256 (docs/DECISIONS.md).
        ensures shaped { Shaped (sectors self.now) };

    // A buffer of another length is refused, so buffers are slices here.
    /// Fills `buffer` with sector `n`. Where it declines, `buffer` is as it was.
    fn read(&self, n: usize, buffer: &mut [u8]) -> Result<(), Refusal>
        ensures answer { result ≡ access (length buffer.old) n (length (sectors self.now)) }
        ensures after { buffer.new ≡ (if is_ok result then slice_index_or (sectors self.now) n [] else buffer.old) };

    /// Replaces sector `n` by `buffer`, and no other. Where it declines, no sector changes.
    fn write(&mut self, n: usize, buffer: &[u8]) -> Result<(), Refusal>
        ensures answer { result ≡ access (length buffer.now) n (length (sectors self.old)) }
        ensures after { sectors self.new ≡ (if is_ok result then slice_set (sectors self.old) n buffer.now else sectors self.old) }
        ensures kept { keeps self.old self.new };
}

/// Whether a call for sector `n` of `count` with a buffer of `size` bytes is accepted.
pub(crate) fn access(size: usize, n: usize, count: usize) -> Result<(), Refusal>
    ensures { result ≡ access size n count }
{
    if size != SECTOR {
        return Err(Refusal::BufferLength);
    }
    if n >= count {
        return Err(Refusal::SectorNumber);
    }
    Ok(())
}

/// Sector `n`; where there is none, zeros.
#[tactic(auto, using(crate::proofs::Fetching::fetched, crate::specs::Fetched::sector_is), unfolding(crate::specs::Fetched::blank))]
pub fn fetch<S: ImageStore>(store: &S, n: usize) -> [u8; SECTOR]
    ensures sector { result ≡ sector_of (S.sectors store.now) n }
    ensures inside { n < length (S.sectors store.now) → result ≡ slice_index_or (S.sectors store.now) n [] }
{
    let mut buffer = [0u8; SECTOR];
    // Where there is no such sector the buffer stays zeros.
    let _ = store.read(n, &mut buffer);
    buffer
}

/// Copies sector `from` to sector `to`.
pub fn copy_sector<S: ImageStore>(store: &mut S, from: usize, to: usize) -> Result<(), Refusal>
    ensures answer { result ≡ access 512 (max from to) (length (S.sectors store.old)) }
    ensures after { S.sectors store.new ≡ (if is_ok result then slice_set (S.sectors store.old) to (slice_index_or (S.sectors store.old) from []) else S.sectors store.old) }
    ensures kept { S.keeps store.old store.new }
{
    let mut buffer = [0u8; SECTOR];
    store.read(from, &mut buffer)?;
    store.write(to, &buffer)
}
