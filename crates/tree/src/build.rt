//! Building trees, and reading their nodes.
ghost use Rattle.std.specs.Prelude.{◌≡◌, ℕ, ◌<◌, true, ◌≢◌, [], ◌∷◌, ◌++◌, length, is_ok, if◌then◌else◌, Some, MatchOption, slice_index_or};
ghost use Rattle.tree.specs.Lists.{listed};
ghost use Rattle.tree.specs.Rules.{is_directory, parent_of, below, placed, allowed, bare};
ghost use Rattle.tree.specs.declared.node.Node.TheVariants.{Absent};

use crate::NODES;
use crate::builder::Builder;
use crate::node::{Misplaced, Node};
use crate::nodes::Tree;

/// Whether node `k` is a directory.
fn is_directory(nodes: &[Node], k: u8) -> bool
    ensures { result ≡ is_directory (slice_index_or nodes.now k Absent) }
{
    matches!(nodes.get(usize::from(k)), Some(Node::Directory { .. }))
}

/// Whether `node` may stand after `nodes`.
fn is_placed(nodes: &[Node], node: Node) -> bool
    ensures { result ≡ placed nodes.now (length nodes.now) node }
{
    match node {
        Node::Absent => !nodes.is_empty(),
        Node::Directory { parent } if nodes.is_empty() => parent == 0,
        Node::Directory { parent } => is_directory(nodes, parent),
        Node::File { parent, length, .. } => is_directory(nodes, parent) && length <= 512,
    }
}

impl Builder {
    /// Lays the next node, unless it breaks a rule or all 16 are laid; then nothing changes.
    #[tactic(auto, unfolding(crate::specs::Rules::allowed))]
    pub fn lay(&mut self, node: Node) -> Result<(), Misplaced>
        ensures answer { is_ok result ≡ allowed (listed self.old.nodes) (length (listed self.old.nodes)) node }
        ensures nodes { listed self.new.nodes ≡ (if is_ok result then listed self.old.nodes ++ node ∷ [] else listed self.old.nodes) }
    {
        if self.nodes.len() == NODES || !is_placed(self.nodes.as_slice(), node) {
            return Err(Misplaced);
        }
        self.nodes.push(node);
        Ok(())
    }

    /// The tree, once all 16 nodes are laid.
    pub fn finish(&self) -> Option<Tree>
        ensures { MatchOption result (length (listed self.now.nodes) ≢ 16) (λ t. (length (listed self.now.nodes) ≡ 16) × (t.nodes ≡ listed self.now.nodes)) }
    {
        let nodes = <[Node; NODES]>::try_from(self.nodes.as_slice()).ok()?;
        Some(Tree { nodes })
    }
}

impl Tree {
    /// Node 0 alone.
    pub fn bare() -> Tree
        ensures { result.nodes ≡ bare }
    {
        let mut nodes = [Node::Absent; NODES];
        nodes[0] = Node::Directory { parent: 0 };
        Tree { nodes }
    }

    /// All nodes, in the order of their numbers.
    pub fn nodes(&self) -> &[Node; NODES]
        ensures { result.now ≡ self.now.nodes }
    {
        &self.nodes
    }

    /// Node `k`; past the last node there is none.
    pub fn node(&self, k: usize) -> Node
        ensures { result ≡ slice_index_or self.now.nodes k Absent }
    {
        self.nodes.get(k).copied().unwrap_or(Node::Absent)
    }

    /// The parent of node `k`, if the node is there.
    pub fn parent(&self, k: usize) -> Option<usize>
        ensures value { result ≡ parent_of (slice_index_or self.now.nodes k Absent) }
        ensures lower { (p : ℕ) → result ≡ Some p → 0 < k → p < k }
        ensures directory { (p : ℕ) → result ≡ Some p → is_directory (slice_index_or self.now.nodes p Absent) ≡ true }
    {
        match self.node(k) {
            Node::Absent => None,
            Node::Directory { parent } | Node::File { parent, .. } => Some(usize::from(parent)),
        }
    }
}
