//! A recording loaded where no base recovers.
ghost use Rattle.std.specs.Prelude.{◌≡◌, length};
ghost use Rattle.foreign.specs.Declined.{NoBase};

use crate::faulty::Faulty;
use image::ImageStore;
use run::{Refusal, Run};
use std::alloc::Global;

/// The store, and what two loads of a recording answered.
#[derive(Drop)]
pub struct Twice<S> {
    pub store: S,
    pub first: Result<(), Refusal>,
    pub second: Result<(), Refusal>,
}

/// Loads a recording twice with a file system that always faults. Both loads are declined since the
/// base does not recover, whatever memory is there, so the run stays Empty: the second is not told
/// that one is loaded.
pub fn load_twice<S: ImageStore>(heap: Global, store: S, fs: Faulty, recording: &[u8]) -> Twice<S>
    ensures store { result.store ≡ store }
    ensures first { NoBase (length (S.sectors store)) result.first }
    ensures second { NoBase (length (S.sectors store)) result.second }
{
    let mut run = Run::begin(heap, store, fs);
    let first = run.load(recording);
    let second = run.load(recording);
    Twice {
        store: run.close(),
        first,
        second,
    }
}
