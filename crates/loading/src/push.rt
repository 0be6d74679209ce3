//! An entry added to a trace.
ghost use Rattle.std.specs.Prelude.{◌≡◌, ℕ, ◌^◌, ◌<◌, [], ◌∷◌, ◌++◌, length, OnOk};
ghost use Rattle.recording.specs.Items.{sectors_of, data_of};
ghost use Rattle.recording.specs.Reading.{item_seen};
ghost use Rattle.loading.specs.Loading.{step_of, whole_sectors};

use image::SECTOR;
use mark::Mark;
use recording::{Entry, Extent};
use std::alloc::AllocError;
use trace::{Source, Step, Trace};

/// Appends the whole sectors of a row of bytes.
#[tactic(auto, using(image::specs::Cuts::chunks_are_sectors))]
fn keep(sectors: &mut Vec<[u8; SECTOR]>, row: &[u8]) -> Result<(), AllocError>
    ensures { OnOk result (sectors.new.items ≡ sectors.old.items ++ whole_sectors row.now) }
{
    let (whole, _) = row.as_chunks::<SECTOR>();
    sectors.extend_from_slice(whole)
}

/// The step of an entry with its mark; its data, if it has some, lie from data sector `from` on.
fn step_of(item: &Entry, mark: Mark, from: u32) -> Step
    requires { sectors_of (item_seen item.now) < 2 ^ 32 }
    ensures { result ≡ step_of (item_seen item.now) mark from }
{
    let Extent { first, sectors } = item.extent();
    let (flush, fua, source) = match *item {
        Entry::Write { flush, fua, .. } => (flush, fua, Source::Data { from }),
        Entry::Discard { flush, .. } => (flush, false, Source::Zeros),
        Entry::Flush { fua, .. } => (true, fua, Source::Zeros),
        Entry::Mark { .. } => (false, false, Source::Zeros),
    };
    // `as`, here and below: no `From` leads to these types, and each cast is proved to lose no bit.
    Step {
        flush,
        fua,
        first: first as usize,
        sectors: sectors as u32,
        source,
        mark,
    }
}

/// Adds an entry with its mark.
pub fn push_entry(trace: &mut Trace, item: &Entry, mark: Mark) -> Result<(), AllocError>
    requires few { sectors_of (item_seen item.now) < 2 ^ 32 }
    requires less { length trace.old.sectors.items < 2 ^ 32 }
    ensures steps { OnOk result (trace.new.steps.items ≡ trace.old.steps.items ++ step_of (item_seen item.now) mark (length trace.old.sectors.items) ∷ []) }
    ensures sectors { OnOk result (trace.new.sectors.items ≡ trace.old.sectors.items ++ whole_sectors (data_of (item_seen item.now))) }
{
    let step = step_of(item, mark, trace.sectors.len() as u32);
    keep(&mut trace.sectors, item.data())?;
    trace.steps.push(step)?;
    Ok(())
}
