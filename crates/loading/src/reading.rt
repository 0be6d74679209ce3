//! The recording, entry by entry.
ghost use Rattle.std.specs.Prelude.{◌≡◌, ℕ, ◌≤◌, length};
ghost use Rattle.loading.specs.Loading.{NextRead, Loaded};

use crate::asking::ask;
use crate::push::push_entry;
use crate::refusal::Refusal;
use image::ImageStore;
use mark::Mark;
use recording::{Entry, Reader};
use std::alloc::Global;
use trace::Trace;

// Two that change: a struct of the reader and the count would be made for one loop.
/// The next entry with its mark, or nothing at the end; `used` counts the data sectors so far.
fn next_entry<'a>(
    reader: &mut Reader<'a>,
    used: &mut u64,
    count: u64,
) -> Result<Option<(Entry<'a>, Mark)>, Refusal>
    requires { used.old ≤ 96 }
    ensures { NextRead count reader.old reader.new used.old used.new result }
{
    let Some(header) = reader.header()? else {
        return Ok(None);
    };
    // By `taken` it was tried: no clause bounds a reader's total, and the proof that one more fits did not close.
    let number = reader.total() - reader.left() + 1;
    let mark = ask(&header, number, *used, count)?;
    let entry = reader.next()?.unwrap();
    *used += header.data_sectors();
    Ok(Some((entry, mark)))
}

/// The entries of a recording in memory, for an image with as many sectors as `base` has; or the
/// first condition by which it is declined, before any crash point is looked at.
pub fn read_trace<S: ImageStore>(heap: Global, bytes: &[u8], base: &S) -> Result<Trace, Refusal>
    ensures { Loaded bytes.now (length (S.ImageStore.sectors base.now)) result }
{
    let mut reader = Reader::open(bytes)?;
    let mut trace = Trace::new(heap);
    let mut used = 0;
    // No `From` leads from `usize` to `u64`; the cast is proved to lose no bit.
    let count = base.count() as u64;
    while let Some((entry, mark)) = next_entry(&mut reader, &mut used, count)? {
        push_entry(&mut trace, &entry, mark)?;
    }
    Ok(trace)
}
