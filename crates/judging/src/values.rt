//! The values that each node may have.
ghost use Rattle.std.specs.Prelude.{◌≡◌, length};

use candidates::Few;
use tree::{NODES, Node};

/// The values that each node may have at a crash point.
#[derive(Clone, Copy)]
pub struct Values {
    pub(crate) nodes: [Few<Node>; NODES],
    ghost size: { length nodes ≡ 16 },
}
