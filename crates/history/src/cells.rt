//! The cells of a history, and how many of them are in use.
ghost use Rattle.std.specs.Prelude.{◌≡◌, ◌<◌, ◌≤◌, length};

/// The values of one key, oldest first. On 8 cells there is at least one value, on any other
/// number of cells there is none. (A rule of the project: the cells are lent, so that how many of
/// them are in use stands beside them.)
#[derive(Drop)]
pub struct History<'a, T> {
    pub(crate) cells: &'a mut [T],
    pub(crate) used: usize,
    ghost most: { used ≤ 8 },
    ghost fit: { (0 < used → length cells.now ≡ 8) },
    ghost some: { (length cells.now ≡ 8 → 0 < used) },
}
