//! Which candidates a crash state takes.
ghost use Rattle.std.specs.Prelude.{◌≡◌, map, length};
ghost use Rattle.candidates.specs.Lists.{listed};

use candidates::Few;
use image::MOST;

/// What the standing state takes of every sector at a crash point: the candidates by their numbers,
/// how many they are, and the place of the one that is taken.
// Parallel arrays, for speed: with picks of both, copied for each state, the same 2,097,151 states took 4.4 s for 0.8 s.
#[derive(Clone, Copy)]
pub struct Choice {
    pub(crate) candidates: [Few<usize>; MOST],
    pub(crate) counts: [usize; MOST],
    pub(crate) places: [usize; MOST],
    ghost size: { length candidates ≡ 64 },
    ghost placed: { length places ≡ 64 },
    ghost counted: { counts ≡ map length (map listed candidates) },
}
