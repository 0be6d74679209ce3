//! How one entry changes the history of a key.
ghost use Rattle.std.specs.Prelude.{◌≡◌, ◌<◌, length, MatchResult};
ghost use Rattle.history.specs.Held.{held};
ghost use Rattle.candidates.specs.Turns.{turned};

use history::{History, Refusal};

/// What an entry does to the history of a key: it settles the history, then it puts a value. With
/// FUA the history is settled before and after the value is put, so that a full one is no obstacle.
#[derive(Clone, Copy)]
pub struct Turn<T> {
    pub settles: bool,
    pub puts: Option<T>,
    pub fua: bool,
}

/// Changes a history of 8 cells as a turn says; it declines where more than 8 values were left.
pub fn apply<T: Copy>(history: &mut History<T>, turn: Turn<T>) -> Result<(), Refusal>
    requires { length history.old.cells.now ≡ 8 }
    ensures values { MatchResult result (λ _. held history.new ≡ turned turn (held history.old)) (λ _. 8 < length (turned turn (held history.old))) }
    ensures cells { length history.new.cells.now ≡ 8 }
{
    if turn.settles {
        history.settle()?;
    }
    match turn.puts {
        None => Ok(()),
        Some(value) if turn.fua => {
            history.settle()?;
            history.put(value)?;
            history.settle()
        }
        Some(value) => history.put(value),
    }
}
