//! The values of a history: how it starts, and how it changes.
ghost use Rattle.std.specs.Prelude.{◌≡◌, false, [], ◌∷◌, ◌++◌, length, is_ok, if◌then◌else◌, nat_eq};
ghost use Rattle.history.specs.Held.{held, last, SameCells, put_answer, settle_answer};

use crate::CELLS;
use crate::cells::History;
use crate::refusal::Refusal;

impl<'a, T: Copy> History<'a, T> {
    /// A history of one value; on cells that are not 8 it is empty, and the cells are as they were.
    pub fn start(cells: &'a mut [T], value: T) -> History<'a, T>
        ensures values { held result ≡ (if nat_eq (length cells.old) 8 then value ∷ [] else []) }
        ensures lent { SameCells cells.entry result.cells }
        ensures other { nat_eq (length cells.old) 8 ≡ false → result.cells.now ≡ cells.old }
    {
        if cells.len() != CELLS {
            return History { cells, used: 0 };
        }
        cells[0] = value;
        History { cells, used: 1 }
    }

    /// Declines where the cells are not 8.
    fn ask_cells(&self) -> Result<(), Refusal>
        ensures { result ≡ settle_answer (length self.now.cells.now) }
    {
        if self.cells.len() == CELLS {
            Ok(())
        } else {
            Err(Refusal::Cells)
        }
    }

    /// Adds a value at the end.
    pub fn put(&mut self, value: T) -> Result<(), Refusal>
        ensures answer { result ≡ put_answer (length self.old.cells.now) (length (held self.old)) }
        ensures values { held self.new ≡ (if is_ok result then held self.old ++ value ∷ [] else held self.old) }
        ensures same { is_ok result ≡ false → self.new ≡ self.old }
        ensures lent { SameCells self.old.cells self.new.cells }
    {
        self.ask_cells()?;
        if self.used == CELLS {
            return Err(Refusal::Full);
        }
        self.cells[self.used] = value;
        self.used += 1;
        Ok(())
    }

    /// Leaves the last value only.
    pub fn settle(&mut self) -> Result<(), Refusal>
        ensures answer { result ≡ settle_answer (length self.old.cells.now) }
        ensures values { held self.new ≡ (if is_ok result then last (held self.old) else held self.old) }
        ensures same { is_ok result ≡ false → self.new ≡ self.old }
        ensures lent { SameCells self.old.cells self.new.cells }
    {
        self.ask_cells()?;
        self.cells[0] = self.cells[self.used - 1];
        self.used = 1;
        Ok(())
    }

    /// The values held, oldest first.
    pub fn values(&self) -> &[T]
        ensures { result.now ≡ held self.now }
    {
        &self.cells[..self.used]
    }
}
