//! At most eight values.
ghost use Rattle.std.specs.Prelude.{◌≡◌, ◌≤◌, ⊤, length};

use history::CELLS;
use std::alloc::AllocError;

/// At most eight values, in order. (Neither an `arrayvec::ArrayVec<T, 8>`, which is not `Copy` and asks
/// for a default value, so that no `Copy` array could hold such lists; nor a `History`, whose cells are lent, by a rule.)
pub struct Few<T> {
    pub(crate) cells: [T; CELLS],
    pub(crate) used: usize,
    ghost size: { length cells ≡ 8 },
    ghost most: { used ≤ 8 },
}

// By hand: no copy is derived of a type with a parameter and an invariant.
impl<T: Copy> Copy for Few<T> {}

impl<T: Copy> Clone for Few<T> {
    ghost is_clone = { λ x y. y ≡ x };

    ghost is_infallible = { λ _. ⊤ };

    /// The same values once more.
    fn clone(&self) -> Result<Few<T>, AllocError> {
        Ok(*self)
    }
}
