//! What a run explores: the recording, and the candidates of the standing point.
ghost use Rattle.std.specs.Prelude.{◌≡◌, ◌≤◌, length};
ghost use Rattle.image.specs.Shown.{shown};
ghost use Rattle.trace.specs.Meaning.{effects_of};
ghost use Rattle.taking.specs.Taking.{Fit};
ghost use Rattle.run.specs.Standing.{Laid};

use image::{ImageStore, Overlay};
use judging::Values;
use points::point_states;
use standing::Choice;
use trace::Trace;
use tree::Tree;

/// A recording in memory, the tree that the base recovers to, and what the sectors and nodes may
/// have at the standing point.
#[derive(Drop)]
pub struct Space {
    pub(crate) trace: Trace,
    pub(crate) tree: Tree,
    pub(crate) choice: Choice,
    pub(crate) values: Values,
}

/// Lays the first state of a point onto the overlay; the answer is how many states the point has.
pub(crate) fn lay_point<S: ImageStore>(
    space: &mut Space,
    state: &mut Overlay<S>,
    point: usize,
) -> u64
    requires fit { Fit (S.ImageStore.sectors state.old.below) space.old.trace }
    requires point { point ≤ length (effects_of space.old.trace) }
    ensures below { state.new.below ≡ state.old.below }
    ensures trace { space.new.trace ≡ space.old.trace }
    ensures tree { space.new.tree ≡ space.old.tree }
    ensures laid { Laid (S.ImageStore.sectors state.old.below) space.new point result (shown S.ImageStore.sectors state.new) }
{
    let states = point_states(&space.trace, &state.below, point).unwrap();
    space.choice = Choice::at(&space.trace, &state.below, point).unwrap();
    space.values = Values::at(&space.trace, &space.tree, point).unwrap();
    space.choice.lay(&space.trace, state);
    states
}
