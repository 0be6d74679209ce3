//! Images compared and copied, sector by sector.
ghost use Rattle.std.specs.Prelude.{◌≡◌, min, length, is_ok, if◌then◌else◌, ◌==◌};
ghost use Rattle.image.specs.Layers.{how_many};
ghost use Rattle.patch.specs.Patched.{differs};

use image::{ImageStore, fetch};
use thiserror::Error;

/// Two stores that have not the same number of sectors.
#[derive(Clone, Copy, PartialEq, Eq, Debug, Error)]
#[error("the stores have not the same number of sectors")]
pub struct CountsDiffer;

/// How many of the sectors that two stores have in common are not the same in both.
pub fn changed_sectors<A: ImageStore, B: ImageStore>(a: &A, b: &B) -> usize
    ensures { result ≡ how_many (differs (A.ImageStore.sectors a.now) (B.ImageStore.sectors b.now)) (min (length (A.ImageStore.sectors a.now)) (length (B.ImageStore.sectors b.now))) }
{
    let count = a.count().min(b.count());
    (0..count).filter(|n| fetch(a, *n) != fetch(b, *n)).count()
}

/// Makes the image of one store that of another with as many sectors. Where the counts differ it
/// declines, and no sector changes.
pub fn copy_image<A: ImageStore, B: ImageStore>(from: &A, to: &mut B) -> Result<(), CountsDiffer>
    ensures answer { is_ok result ≡ (length (A.ImageStore.sectors from.now) == length (B.ImageStore.sectors to.old)) }
    ensures after { B.ImageStore.sectors to.new ≡ (if is_ok result then A.ImageStore.sectors from.now else B.ImageStore.sectors to.old) }
    ensures kept { B.ImageStore.keeps to.old to.new }
{
    let count = from.count();
    if count != to.count() {
        return Err(CountsDiffer);
    }
    // A loop, since after `for_each` nothing is known of a store that its closure changes.
    for n in 0..count {
        to.write(n, &fetch(from, n)).unwrap();
    }
    Ok(())
}
