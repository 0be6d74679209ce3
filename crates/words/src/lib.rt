//! Entries of a recording in words, for the programs.
#![tactic(auto)]

ghost use Rattle.std.specs.Prelude.{◌≡◌, IfOk, map, option_map, string_bytes};
ghost use Rattle.recording.specs.Reading.{item_seen};
ghost use Rattle.words.specs.Words.{entry_text, flags_text, point_text, sectors_text};

use console::printable;
use recording::{Entry, Extent};
use std::alloc::{AllocError, Global};

/// The names of the flags that are set.
fn flag_words(heap: Global, flags: &[(bool, &str)]) -> Result<String, AllocError>
    ensures { IfOk result (λ s. string_bytes s ≡ flags_text (map (λ flag. (flag.0, flag.1.now)) flags.now)) }
{
    let mut words = String::new(heap);
    for (is_set, name) in flags {
        if *is_set {
            write!(words, ", {name}")?;
        }
    }
    Ok(words)
}

/// Which sectors are touched.
fn sector_words(heap: Global, extent: Extent) -> Result<String, AllocError>
    ensures { IfOk result (λ s. string_bytes s ≡ sectors_text extent.first extent.sectors) }
{
    let Extent { first, sectors } = extent;
    if sectors == 1 {
        return format!(in heap; "sector {first}");
    }
    let last = u128::from(first) + u128::from(sectors.max(1)) - 1;
    format!(in heap; "sectors {first} to {last}")
}

/// An entry in words: its kind, its sectors and its flags, or the text of a mark.
pub fn entry_words(heap: Global, entry: &Entry) -> Result<String, AllocError>
    ensures { IfOk result (λ s. string_bytes s ≡ entry_text (item_seen entry.now)) }
{
    match *entry {
        Entry::Write {
            flush,
            fua,
            metadata,
            ..
        } => {
            let sectors = sector_words(heap, entry.extent())?;
            let flags = [(flush, "flush"), (fua, "FUA"), (metadata, "metadata")];
            let flags = flag_words(heap, &flags)?;
            format!(in heap; "write {sectors}{flags}")
        }
        Entry::Discard {
            flush,
            metadata,
            ..
        } => {
            let sectors = sector_words(heap, entry.extent())?;
            let flags = flag_words(heap, &[(flush, "flush"), (metadata, "metadata")])?;
            format!(in heap; "discard {sectors}{flags}")
        }
        Entry::Flush {
            sector,
            fua,
            discard,
            metadata,
        } => {
            let flags = [(fua, "FUA"), (discard, "discard"), (metadata, "metadata")];
            let flags = flag_words(heap, &flags)?;
            format!(in heap; "flush without data, names sector {sector}{flags}")
        }
        Entry::Mark { text, .. } => {
            let text = printable(heap, text)?;
            format!(in heap; "mark {text}")
        }
    }
}

/// What stands before a crash point, in words. Point 0 has no entry before it.
pub fn point_words(heap: Global, point: usize, before: Option<Entry>) -> Result<String, AllocError>
    ensures { IfOk result (λ s. string_bytes s ≡ point_text point (option_map item_seen before.entry)) }
{
    let Some(entry) = before else {
        return format!(in heap; "before the first entry");
    };
    let words = entry_words(heap, &entry)?;
    format!(in heap; "after entry {point}, {words}")
}
