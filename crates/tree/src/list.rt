//! A list of at most 16 nodes.
ghost use Rattle.std.specs.Prelude.{◌≡◌, ◌≤◌, length};

use crate::NODES;
use crate::node::Node;

/// At most 16 nodes, in the order of their numbers. (Not an `arrayvec::ArrayVec`, which is not `Copy`: a builder is.)
#[derive(Clone, Copy)]
pub struct Nodes {
    pub(crate) cells: [Node; NODES],
    pub(crate) used: usize,
    ghost size: { length cells ≡ 16 },
    ghost most: { used ≤ 16 },
}
