//! A file system that the library does not know.
ghost use Rattle.std.specs.Prelude.{refl};
ghost use Rattle.std.proofs.Common.{lit≤};
ghost use Rattle.filesystem.specs.Outcomes.{a_fault};
ghost use Rattle.filesystem.specs.declared.fault.Fault.TheVariants.{Other};

use filesystem::{Fault, FileSystem};
use image::ImageStore;
use tree::Tree;

/// A file system that reads no image: every recovery is a fault, of a number of its own.
#[derive(Clone, Copy)]
pub struct Faulty {
    pub number: u32,
}

impl FileSystem for Faulty {
    const LEAST: usize = 1;

    ghost LEAST = { 1 };

    ghost outcome = { λ s _. a_fault (Other s.number 0) };

    ghost after = { λ _ image. image };

    ghost low = { lit≤ tt };

    ghost high = { lit≤ tt };

    ghost count = { λ s image. refl };

    ghost shape = { λ s image shaped. shaped };

    fn recover<S: ImageStore>(&self, _image: &mut S, _tree: &mut Tree) -> Result<(), Fault> {
        Err(Fault::Other {
            number: self.number,
            place: 0,
        })
    }
}
