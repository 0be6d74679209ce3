//! The call that a line spells.
ghost use Rattle.std.specs.Prelude.{MatchOption, ◌++◌, codes};
ghost use Rattle.script.specs.declared.spoken.Spoken.{Spoken};
ghost use Rattle.script.specs.Spelling.{Finds, IsLook, Spells};

use crate::cut::cut;
use crate::numbers::number;
use crate::spoken::Spoken;
use image::SECTOR;

/// What follows the word `look` and a space: the sector, and maybe how many bytes the buffer has.
fn look(body: &[u8]) -> Option<Spoken>
    ensures { Finds (codes "look " ++ body.now) result }
{
    let Some((sector, size)) = cut(body, b' ') else {
        return Some(Spoken::Look {
            sector: number(body)?,
            size: SECTOR,
        });
    };
    Some(Spoken::Look {
        sector: number(sector)?,
        size: number(size)?,
    })
}

/// The call that is one word.
fn word(line: &[u8]) -> Option<Spoken>
    ensures { MatchOption result ((c : Spoken) → Spells c line.now → IsLook c) (λ c. Spells c line.now) }
{
    match line {
        b"load" => Some(Spoken::Load),
        b"advance" => Some(Spoken::Advance),
        b"judge" => Some(Spoken::Judge),
        b"forgo" => Some(Spoken::Forgo),
        b"report" => Some(Spoken::Report),
        _ => None,
    }
}

/// The call that spells `line`.
pub fn read_line(line: &[u8]) -> Option<Spoken>
    ensures { Finds line.now result }
{
    match line.strip_prefix(b"look ") {
        Some(body) => look(body),
        None => word(line),
    }
}
