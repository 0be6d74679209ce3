//! The store that keeps its writes to itself, over any store.
ghost use Rattle.std.specs.Prelude.{◌≡◌, ℕ, true, false, length, is_ok, if◌then◌else◌, nat_eq, slice_set, refl};
ghost use Rattle.std.proofs.Common.{◌∙◌};
ghost use Rattle.image.specs.Layers.{how_many};
ghost use Rattle.image.specs.Shown.{shown, holds};
ghost use Rattle.image.specs.Refusals.{access};

use crate::refusal::Refusal;
use crate::rows::{get_sector, is_row, put_sector};
use crate::store::{ImageStore, access};
use crate::{MOST, SECTOR};

/// The sectors of the store below, with those written here in place of the old ones.
#[derive(Drop)]
pub struct Overlay<S> {
    pub below: S,
    // One bit for each sector that is held, as docs/DECISIONS.md has it (Stores): `held` is its count of ones. An
    // array of Options would need as many tags, and `held` a count of them.
    written: u64,
    // Not `[[u8; 512]; 64]`: it needs a ghost field, and with it an overlay over an overlay on a flat store has no proof.
    cells: [u8; SECTOR * MOST],
}

impl<S: ImageStore> ImageStore for Overlay<S> {
    ghost sectors = { λ s. shown S.ImageStore.sectors s };

    ghost keeps = { λ s t. t.below ≡ s.below };

    ghost stays = { λ s. refl };

    ghost onward = { λ s t u p q. q ∙ p };

    #[tactic(auto, using(crate::specs::Layers::length_overlaid, crate::specs::Layers::overlaid_shaped))]
    fn count(&self) -> usize {
        is_row(&self.cells);
        self.below.count()
    }

    #[tactic(auto, using(crate::specs::Layers::length_overlaid, crate::proofs::Bitwise::has_set, crate::proofs::Bitwise::has_unset, crate::proofs::Layering::held_shows, crate::proofs::Layering::below_shows))]
    fn read(&self, n: usize, buffer: &mut [u8]) -> Result<(), Refusal> {
        access(buffer.len(), n, self.count())?;
        if (self.written >> n) & 1 == 0 {
            return self.below.read(n, buffer);
        }
        get_sector(&self.cells, n, buffer);
        Ok(())
    }

    // Beyond the store's contract: which sectors the overlay holds after it.
    #[tactic(auto, using(crate::specs::Layers::length_overlaid, crate::proofs::Bitwise::has_with, crate::proofs::Layering::overlaid_write))]
    fn write(&mut self, n: usize, buffer: &[u8]) -> Result<(), Refusal>
        ensures answer { result ≡ access (length buffer.now) n (length (shown S.ImageStore.sectors self.old)) }
        ensures after { shown S.ImageStore.sectors self.new ≡ (if is_ok result then slice_set (shown S.ImageStore.sectors self.old) n buffer.now else shown S.ImageStore.sectors self.old) }
        ensures kept { self.new.below ≡ self.old.below }
        ensures holding { (k : ℕ) → holds self.new k ≡ (if is_ok result then (if nat_eq k n then true else holds self.old k) else holds self.old k) }
    {
        access(buffer.len(), n, self.count())?;
        put_sector(&mut self.cells, n, buffer);
        self.written |= 1 << n;
        Ok(())
    }
}

impl<S: ImageStore> Overlay<S> {
    /// An overlay on `below` that holds nothing.
    #[tactic(auto, using(crate::proofs::Layering::overlaid_none, crate::proofs::Bitwise::has_none))]
    pub fn over(below: S) -> Overlay<S>
        ensures below { result.below ≡ below }
        ensures same { shown S.ImageStore.sectors result ≡ S.ImageStore.sectors below }
        ensures none { (k : ℕ) → holds result k ≡ false }
    {
        Overlay {
            below,
            written: 0,
            cells: [0; SECTOR * MOST],
        }
    }

    /// The store below; what the overlay holds is lost.
    pub fn into_below(self) -> S
        ensures { result ≡ self.below }
    {
        self.below
    }

    /// How many different sectors the overlay holds.
    #[tactic(auto, using(crate::proofs::Bitwise::ones_how_many))]
    pub fn held(&self) -> u32
        ensures { result ≡ how_many (holds self.now) 64 }
    {
        self.written.count_ones()
    }

    /// Drops every sector that the overlay holds.
    #[tactic(auto, using(crate::proofs::Layering::overlaid_none, crate::proofs::Bitwise::has_none))]
    pub fn forget(&mut self)
        ensures below { self.new.below ≡ self.old.below }
        ensures same { shown S.ImageStore.sectors self.new ≡ S.ImageStore.sectors self.old.below }
        ensures none { (k : ℕ) → holds self.new k ≡ false }
    {
        self.written = 0;
    }
}
