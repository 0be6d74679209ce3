//! The journalled file system.
ghost use Rattle.std.specs.Prelude.{◌≡◌};
ghost use Rattle.journalled.specs.Journal.{sequenced, journalled_outcome, journalled_after};
ghost use Rattle.journalled.specs.Shapes.{after_count, after_shaped};
ghost use Rattle.std.proofs.Common.{lit≤};

use crate::descriptor::LOWEST;
use crate::replay::restore;
use filesystem::{Fault, FileSystem, check_head, kind_of, read_tree, word_at};
use image::{ImageStore, fetch};
use tree::Tree;

/// The journalled file system.
#[derive(Clone, Copy)]
pub struct Journalled;

/// Word 0 of sector 0.
const FORMAT: u32 = 0x4000_0001;

/// Checks that word 2 of sector 0 is a sequence number.
fn check_sequence<S: ImageStore>(image: &S) -> Result<(), Fault>
    ensures { result ≡ sequenced (S.sectors image.now) }
{
    if kind_of(word_at(&fetch(image, 0), 2)) == 3 {
        Ok(())
    } else {
        Err(Fault::Sequence)
    }
}

impl FileSystem for Journalled {
    const LEAST: usize = 16;

    ghost LEAST = { 16 };

    ghost outcome = { λ _ image. journalled_outcome image };

    ghost after = { λ _ image. journalled_after image };

    ghost low = { lit≤ tt };

    ghost high = { lit≤ tt };

    ghost count = { λ s image. after_count image };

    ghost shape = { λ s image shaped. after_shaped image shaped };

    fn recover<S: ImageStore>(&self, image: &mut S, tree: &mut Tree) -> Result<(), Fault> {
        check_head(image, Self::LEAST, FORMAT)?;
        check_sequence(image)?;
        restore(image);
        read_tree(image, LOWEST, tree)
    }
}
