//! The history of a key, entry after entry.
ghost use Rattle.std.specs.Prelude.{ℕ, List};
ghost use Rattle.candidates.specs.Turns.{Follows};
ghost use Rattle.candidates.specs.Gathering.{Walked};

use crate::eight::Few;
use crate::refusal::Refusal;
use crate::turns::{Turn, apply};
use history::{CELLS, History};

/// What the history of a key holds at a point, if it holds `start` in the base and each entry
/// changes it by its turn; or the first point up to there at which that is more than 8 values.
pub fn walk<T: Copy, F: Fn(usize) -> Turn<T>>(
    start: T,
    point: usize,
    turn: F,
) -> Result<Few<T>, Refusal>
    requires { F.IsAlwaysCallable turn }
    ensures { (at : ℕ → List T) → Follows (F.post turn) start point at → Walked at point result }
{
    let mut cells = [start; CELLS];
    let mut history = History::start(&mut cells, start);
    // By the point before each entry: the history at a point is what the next entry changes.
    for k in 0..point {
        apply(&mut history, turn(k + 1)).map_err(|_| Refusal::Candidates { point: k + 1 })?;
    }
    Ok(Few::of(history.values(), start))
}
