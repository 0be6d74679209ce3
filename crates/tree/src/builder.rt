//! A tree in the making, with the rules that its nodes keep so far.
ghost use Rattle.std.specs.Prelude.{◌≡◌, ℕ, ◌<◌, true, ⊤, [], length, slice_index_or};
ghost use Rattle.tree.specs.Lists.{listed};
ghost use Rattle.tree.specs.Rules.{allowed};
ghost use Rattle.tree.specs.declared.node.Node.TheVariants.{Absent};

use crate::list::Nodes;
use std::alloc::AllocError;

/// The first nodes of a tree, in the order of their numbers.
pub struct Builder {
    pub(crate) nodes: Nodes,
    ghost sound: { ((k : ℕ) → k < length (listed nodes) → allowed (listed nodes) k (slice_index_or (listed nodes) k Absent) ≡ true) },
}

impl Copy for Builder {}

// By hand, so that an edit can try what a clone promises.
impl Clone for Builder {
    ghost is_clone = { λ b c. c ≡ b };

    ghost is_infallible = { λ _. ⊤ };

    /// The same nodes once more.
    fn clone(&self) -> Result<Builder, AllocError> {
        Ok(*self)
    }
}

impl Builder {
    /// No node yet.
    pub fn new() -> Builder
        ensures { listed result.nodes ≡ [] }
    {
        Builder {
            nodes: Nodes::new(),
        }
    }

    /// How many nodes are laid: the number of the next.
    pub fn laid(&self) -> usize
        ensures { result ≡ length (listed self.now.nodes) }
    {
        self.nodes.len()
    }
}
