//! Reads a script, line by line.
ghost use Rattle.std.specs.Prelude.{◌≡◌, List, MatchResult};
ghost use Rattle.std.specs.List.{AllZip};
ghost use Rattle.script.specs.declared.spoken.Spoken.{Spoken};
ghost use Rattle.script.specs.declared.refusal.Refusal.TheVariants.{Memory};
ghost use Rattle.script.specs.Spelling.{Spells};
ghost use Rattle.script.specs.Lines.{First, lines, Stopped};

use crate::cut::cut;
use crate::line::read_line;
use crate::refusal::Refusal;
use crate::spoken::Spoken;
use std::alloc::Global;

/// The first line of a text, and what stands behind its end.
fn first_line(text: &[u8]) -> (&[u8], &[u8])
    ensures { First text.now result.0.now result.1.now }
{
    cut(text, b'\n').unwrap_or((text, &[]))
}

/// The calls of a script, one a line; or the first line that is no call.
pub fn read_script(heap: Global, text: &[u8]) -> Result<Vec<Spoken>, Refusal>
    ensures read { MatchResult result (λ calls. AllZip Spells calls.items (lines text.now)) (λ why. Stopped why (lines text.now)) }
    ensures only { (calls : List Spoken) → AllZip Spells calls (lines text.now) → MatchResult result (λ read. read.items ≡ calls) (λ why. why ≡ Memory) }
{
    let mut calls = Vec::new(heap);
    let mut rest = text;
    while !rest.is_empty() {
        let (line, after) = first_line(rest);
        let Some(call) = read_line(line) else {
            return Err(Refusal::NoCall {
                line: calls.len() + 1,
            });
        };
        calls.push(call)?;
        rest = after;
    }
    Ok(calls)
}
