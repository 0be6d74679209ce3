//! The plain file system: no journal, and a recovery that writes nothing.
#![tactic(auto)]

ghost use Rattle.plain.specs.Examples.{Reads, NoParent, PastEnd, TooFew, Miscounted};
ghost use Rattle.plain.specs.Plain.{plain_outcome, HeadFault, ReadTree};
ghost use Rattle.std.proofs.Common.{lit≤, refl};

use filesystem::{Fault, FileSystem, check_head, read_tree};
use image::ImageStore;
use tree::Tree;

/// The plain file system.
#[derive(Clone, Copy)]
pub struct Plain;

/// Word 0 of sector 0.
const FORMAT: u32 = 0x4000_0002;

/// The lowest data sector.
const LOWEST: usize = 2;

impl FileSystem for Plain {
    const LEAST: usize = 2;

    ghost LEAST = { 2 };

    ghost outcome = { λ _ image. plain_outcome image };

    ghost after = { λ _ image. image };

    ghost low = { lit≤ tt };

    ghost high = { lit≤ tt };

    ghost count = { λ s image. refl };

    ghost shape = { λ s image shaped. shaped };

    fn recover<S: ImageStore>(&self, image: &mut S, tree: &mut Tree) -> Result<(), Fault> {
        check_head(image, Self::LEAST, FORMAT)?;
        read_tree(image, LOWEST, tree)
    }
}

/// Which fault comes first, and what is read.
pub fn laws()
    ensures head { HeadFault }
    ensures read { ReadTree }
{}

/// Worked examples of the layout.
#[tactic(auto, unfolding(tree::specs::Rules::allowed, image::specs::Fetched::blank, filesystem::specs::Least::first_failing, filesystem::specs::Words::word_at, filesystem::specs::Trees::node_at, filesystem::specs::Trees::nodes_of, filesystem::specs::Trees::node_stands, filesystem::specs::Trees::tree_of))]
pub fn examples()
    ensures reads { Reads }
    ensures parent { NoParent }
    ensures sector { PastEnd }
    ensures few { TooFew }
    ensures count { Miscounted }
{}
