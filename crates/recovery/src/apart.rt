//! An image recovered apart from the store that holds it.
ghost use Rattle.std.specs.Prelude.{◌≡◌, length, if◌then◌else◌, nat_eq};
ghost use Rattle.image.specs.Shown.{shown};
ghost use Rattle.recovery.specs.Results.{outcome_of};

use filesystem::{Fault, FileSystem};
use image::{ImageStore, Overlay};
use patch::copy_image;
use tree::Tree;

// A fault leaves no tree here: `recover` is handed one by a rule, and this call makes it for that. `below` and `kept`
// relate a store before to the one after, which no type does.
/// Recovers the image that the overlay shows, and copies the image afterwards to `out`, if that
/// has as many sectors. The overlay shows the image afterwards, and the store below it is as it was.
pub fn recover_apart<F: FileSystem, A: ImageStore, B: ImageStore>(
    system: &F,
    over: &mut Overlay<A>,
    out: &mut B,
) -> Result<Tree, Fault>
    ensures told { outcome_of result ≡ F.FileSystem.outcome system.now (shown A.ImageStore.sectors over.old) }
    ensures out { B.ImageStore.sectors out.new ≡ (if nat_eq (length (shown A.ImageStore.sectors over.old)) (length (B.ImageStore.sectors out.old)) then F.FileSystem.after system.now (shown A.ImageStore.sectors over.old) else B.ImageStore.sectors out.old) }
    ensures over { shown A.ImageStore.sectors over.new ≡ F.FileSystem.after system.now (shown A.ImageStore.sectors over.old) }
    ensures below { over.new.below ≡ over.old.below }
    ensures kept { B.ImageStore.keeps out.old out.new }
{
    let mut tree = Tree::bare();
    let answer = system.recover(over, &mut tree);
    // A store of another size is left as it is, and the answer is that of the recovery all the same.
    let _ = copy_image(over, out);
    answer?;
    Ok(tree)
}
