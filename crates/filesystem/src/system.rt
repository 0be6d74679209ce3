//! What a file system is.
ghost use Rattle.std.specs.Prelude.{◌≡◌, ℕ, ◌≤◌, false, length, is_ok};
ghost use Rattle.image.specs.Sectors.{Image, Shaped};
ghost use Rattle.filesystem.specs.Outcomes.{Outcome, told};

use crate::fault::Fault;
use image::ImageStore;
use tree::Tree;

/// A way to lay out a tree on an image, with its recovery.
pub trait FileSystem {
    /// The fewest sectors of an image.
    const LEAST: usize;

    ghost LEAST: { ℕ };

    // What a recovery comes to, and the image after it, by the image's sectors alone.
    ghost outcome: { Self → Image → Outcome };

    ghost after: { Self → Image → Image };

    // A rule: the tree handed in keeps its value on a fault.
    /// Recovers the image in place, and reads its tree. On a fault the tree is as it was.
    fn recover<S: ImageStore>(&self, image: &mut S, tree: &mut Tree) -> Result<(), Fault>
        ensures told { told result tree.new.nodes ≡ outcome self.now (S.ImageStore.sectors image.old) }
        ensures image { S.ImageStore.sectors image.new ≡ after self.now (S.ImageStore.sectors image.old) }
        ensures tree { is_ok result ≡ false → tree.new ≡ tree.old }
        ensures kept { S.ImageStore.keeps image.old image.new };

    ghost low: { 1 ≤ LEAST };

    ghost high: { LEAST ≤ 64 };

    ghost count: { (s : Self) (image : Image) → length (after s image) ≡ length image };

    ghost shape: { (s : Self) (image : Image) → Shaped image → Shaped (after s image) };
}
