//! The store that stands on a row of bytes.
ghost use Rattle.std.specs.Prelude.{◌≡◌, length, is_ok, if◌then◌else◌, slice_set, refl};
ghost use Rattle.std.proofs.Common.{◌∙◌};
ghost use Rattle.image.specs.Sectors.{cut, put, Untouched};
ghost use Rattle.image.specs.Cuts.{untouched_self, untouched_onward};
ghost use Rattle.image.specs.Refusals.{access};

use crate::refusal::Refusal;
use crate::rows::{get_sector, is_row, put_sector};
use crate::store::{ImageStore, access};
use crate::{MOST, SECTOR};

/// The sectors that lie whole in a row of bytes, the first 64 of them.
#[derive(Drop)]
pub struct Flat<'a> {
    bytes: &'a mut [u8],
}

impl<'a> Flat<'a> {
    /// The store on `bytes`.
    pub fn new(bytes: &'a mut [u8]) -> Flat<'a>
        ensures { result.bytes ≡ bytes.entry }
    {
        Flat { bytes }
    }
}

impl<'a> ImageStore for Flat<'a> {
    ghost sectors = { λ s. cut s.bytes.now };

    // The bytes are the same ones, and those behind the last sector are as they were.
    ghost keeps = { λ s t. (t.bytes.ghost_name ≡ s.bytes.ghost_name) × Untouched s.bytes.now t.bytes.now };

    ghost stays = { λ s. (refl, untouched_self s.bytes.now) };

    ghost onward = { λ s t u p q. (q.0 ∙ p.0, untouched_onward s.bytes.now t.bytes.now u.bytes.now p.1 q.1) };

    #[tactic(auto, using(crate::specs::Cuts::length_cut, crate::specs::Cuts::cut_shaped))]
    fn count(&self) -> usize {
        is_row(self.bytes);
        (self.bytes.len() / SECTOR).min(MOST)
    }

    #[tactic(auto, using(crate::specs::Cuts::within_cut, crate::specs::Cuts::cut_index))]
    fn read(&self, n: usize, buffer: &mut [u8]) -> Result<(), Refusal> {
        access(buffer.len(), n, self.count())?;
        get_sector(self.bytes, n, buffer);
        Ok(())
    }

    // Beyond the store's contract: the row is as it was but for the bytes of sector `n`.
    #[tactic(auto, using(crate::specs::Cuts::within_cut, crate::specs::Cuts::cut_written, crate::specs::Cuts::put_untouched))]
    fn write(&mut self, n: usize, buffer: &[u8]) -> Result<(), Refusal>
        ensures answer { result ≡ access (length buffer.now) n (length (cut self.old.bytes.now)) }
        ensures after { cut self.new.bytes.now ≡ (if is_ok result then slice_set (cut self.old.bytes.now) n buffer.now else cut self.old.bytes.now) }
        ensures kept { (self.new.bytes.ghost_name ≡ self.old.bytes.ghost_name) × Untouched self.old.bytes.now self.new.bytes.now }
        ensures row { self.new.bytes.now ≡ (if is_ok result then put self.old.bytes.now n buffer.now else self.old.bytes.now) }
    {
        access(buffer.len(), n, self.count())?;
        put_sector(self.bytes, n, buffer);
        Ok(())
    }
}
