//! Making and reading a list of at most 16 nodes.
ghost use Rattle.std.specs.Prelude.{◌≡◌, ◌<◌, ◌≤◌, [], ◌∷◌, ◌++◌, length};
ghost use Rattle.tree.specs.Lists.{listed};

use crate::NODES;
use crate::list::Nodes;
use crate::node::Node;

impl Nodes {
    /// No nodes.
    pub fn new() -> Nodes
        ensures { listed result ≡ [] }
    {
        let cells = [Node::Absent; NODES];
        Nodes { cells, used: 0 }
    }

    /// How many nodes there are.
    pub fn len(&self) -> usize
        ensures { result ≡ length (listed self.now) }
    {
        self.used
    }

    /// Adds a node at the end.
    pub fn push(&mut self, node: Node)
        requires { length (listed self.old) < 16 }
        ensures { listed self.new ≡ listed self.old ++ node ∷ [] }
    {
        self.cells[self.used] = node;
        self.used += 1;
    }

    /// The nodes, in order.
    pub fn as_slice(&self) -> &[Node]
        ensures { result.now ≡ listed self.now }
    {
        &self.cells[..self.used]
    }
}
