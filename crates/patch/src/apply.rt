//! An entry applied to a store.
ghost use Rattle.std.specs.Prelude.{◌≡◌, ◌<◌, not, length, is_ok, if◌then◌else◌};
ghost use Rattle.recording.specs.Items.{sectors_of};
ghost use Rattle.recording.specs.Writes.{nth, outside};
ghost use Rattle.recording.specs.Reading.{item_seen};
ghost use Rattle.patch.specs.Patched.{applied};

use image::{ImageStore, SECTOR};
use recording::Entry;
use thiserror::Error;

/// The entry touches a sector outside the image.
#[derive(Clone, Copy, PartialEq, Eq, Debug, Error)]
#[error("the entry touches a sector outside the image")]
pub struct Outside;

static ZEROS: [u8; SECTOR] = [0; SECTOR];

/// What an entry writes to its `i`-th sector: lent, since a copy of it costs as much again.
fn new_sector<'a>(item: &Entry<'a>, i: usize) -> &'a [u8; SECTOR]
    requires { i < sectors_of (item_seen item.now) }
    ensures { result.now ≡ nth (item_seen item.now) i }
{
    let (sectors, _) = item.data().as_chunks::<SECTOR>();
    match sectors.get(i) {
        Some(sector) => sector,
        None => &ZEROS,
    }
}

/// Gives each sector that the entry writes its new content, and changes no other. An entry that
/// touches a sector outside the image is declined, and then no sector changes.
pub fn apply_entry<S: ImageStore>(store: &mut S, item: &Entry) -> Result<(), Outside>
    ensures answer { is_ok result ≡ not (outside (item_seen item.now) (length (S.ImageStore.sectors store.old))) }
    ensures after { S.ImageStore.sectors store.new ≡ (if is_ok result then applied (item_seen item.now) (S.ImageStore.sectors store.old) else S.ImageStore.sectors store.old) }
    ensures kept { S.ImageStore.keeps store.old store.new }
{
    let extent = item.extent();
    // `as`, here and in the replay: no `From` leads from `usize` to `u64` or back, and each cast is proved to lose nothing.
    if extent.is_outside(store.count() as u64) {
        return Err(Outside);
    }
    let first = extent.first as usize;
    // By number, since one loop writes the bytes of a write and the zeros of a discard.
    for i in 0..extent.sectors as usize {
        store.write(first + i, new_sector(item, i)).unwrap();
    }
    Ok(())
}
