//! What is asked of an entry between its form and its data.
ghost use Rattle.std.specs.Prelude.{◌≡◌, ℕ, ◌+◌, ◌&&◌, List, if◌then◌else◌, Some, nat_lt};
ghost use Rattle.mark.specs.declared.mark.Mark.TheVariants.{Comment};
ghost use Rattle.mark.specs.Found.{mark_of};
ghost use Rattle.recording.specs.Reading.{HeaderAt};
ghost use Rattle.loading.specs.Asking.{asked, answered};

use crate::refusal::Refusal;
use mark::{Mark, read_mark};
use recording::Header;

/// The mark of an entry, a comment where it is none; nothing where no mark spells its text.
fn mark_of(header: &Header) -> Option<Mark>
    ensures { result ≡ (if header.now.flags.mark then mark_of header.now.text.now else Some Comment) }
{
    if !header.flags.mark {
        return Some(Mark::Comment);
    }
    read_mark(header.text).ok()
}

/// The most data sectors of a recording.
const MOST_DATA: u64 = 96;

/// Whether an entry goes over the limit of data sectors, `used` of which are used.
fn is_too_much(header: &Header, used: u64) -> bool
    ensures { result ≡ nat_lt 96 (used + (if header.now.flags.discard then 0 else header.now.sectors)) }
{
    used > MOST_DATA || header.data_sectors() > MOST_DATA - used
}

// Three numbers of three things (the entry, the data sectors before it, the image): a struct would be made for one call.
/// The mark of an entry, or why it is declined: for its text, its sectors, its data.
pub fn ask(header: &Header, number: u64, used: u64, count: u64) -> Result<Mark, Refusal>
    ensures { result ≡ answered header.now number used count }
{
    let mark = mark_of(header).ok_or(Refusal::NoMark { entry: number })?;
    if header.extent().is_outside(count) {
        return Err(Refusal::Outside { entry: number });
    }
    if is_too_much(header, used) {
        return Err(Refusal::TooMuchData { entry: number });
    }
    Ok(mark)
}
