//! A whole recording replayed onto a store.
ghost use Rattle.std.specs.Prelude.{◌≡◌, length, is_ok, if◌then◌else◌, None};
ghost use Rattle.recording.specs.Recorded.{recorded, remaining, items_of};
ghost use Rattle.patch.specs.Replayed.{first_outside, applied_all, replay_answer};

use crate::apply::apply_entry;
use crate::declined::Declined;
use crate::entries::Entries;
use image::ImageStore;

/// The number of the first entry that touches a sector outside an image of so many.
fn first_outside(mut entries: Entries, count: u64) -> Option<u64>
    ensures { result ≡ first_outside count (items_of (remaining entries.entry.reader)) }
{
    entries
        .position(|entry| entry.extent().is_outside(count))
        // No `From` leads from `usize` to `u64`; the cast is proved to lose no bit, here and below.
        .map(|place| place as u64 + 1)
}

/// Applies every entry; none lies outside.
fn apply_all<S: ImageStore>(store: &mut S, entries: Entries)
    requires { first_outside (length (S.ImageStore.sectors store.old)) (items_of (remaining entries.reader)) ≡ None }
    ensures after { S.ImageStore.sectors store.new ≡ applied_all (items_of (remaining entries.entry.reader)) (S.ImageStore.sectors store.old) }
    ensures kept { S.ImageStore.keeps store.old store.new }
{
    for entry in entries {
        apply_entry(store, &entry).unwrap();
    }
}

/// Applies all entries of a recording to a store, in order, and answers how many there are. What
/// is no recording, or has an entry outside the image, is declined, and then no sector changes.
pub fn replay_recording<S: ImageStore>(store: &mut S, bytes: &[u8]) -> Result<u64, Declined>
    ensures answer { result ≡ replay_answer (recorded bytes.now) (length (S.ImageStore.sectors store.old)) }
    ensures after { S.ImageStore.sectors store.new ≡ (if is_ok result then applied_all (items_of (recorded bytes.now)) (S.ImageStore.sectors store.old) else S.ImageStore.sectors store.old) }
    ensures kept { S.ImageStore.keeps store.old store.new }
{
    let entries = Entries::of(bytes).map_err(Declined::Recording)?;
    if let Some(entry) = first_outside(entries, store.count() as u64) {
        return Err(Declined::OutsideImage { entry });
    }
    apply_all(store, entries);
    Ok(entries.left())
}
