//! Making and reading lists of at most eight values.
ghost use Rattle.std.specs.Prelude.{◌≡◌, ℕ, ◌+◌, ◌<◌, ◌≤◌, [], ◌∷◌, ◌++◌, length, take};
ghost use Rattle.candidates.specs.Lists.{listed};

use crate::eight::Few;
use history::CELLS;

impl<T: Copy> Few<T> {
    /// No values; `fill` stands in the free cells.
    pub fn empty(fill: T) -> Few<T>
        ensures { listed result ≡ [] }
    {
        let cells = [fill; CELLS];
        Few { cells, used: 0 }
    }

    /// A copy of at most eight values; `fill` stands in the free cells.
    pub(crate) fn of(values: &[T], fill: T) -> Few<T>
        requires { length values.now ≤ 8 }
        ensures { listed result ≡ values.now }
    {
        let mut cells = [fill; CELLS];
        cells[..values.len()].copy_from_slice(values);
        Few {
            cells,
            used: values.len(),
        }
    }

    /// Adds a value at the end.
    pub(crate) fn push(&mut self, value: T)
        requires { length (listed self.old) < 8 }
        ensures { listed self.new ≡ listed self.old ++ value ∷ [] }
    {
        self.cells[self.used] = value;
        self.used += 1;
    }

    /// The values, in order.
    pub fn values(&self) -> &[T]
        ensures values { result.now ≡ listed self.now }
        ensures few { length result.now ≤ 8 }
    {
        &self.cells[..self.used]
    }
}
