//! A whole tree, with the rules that it keeps.
ghost use Rattle.std.specs.Prelude.{◌≡◌, ℕ, ◌<◌, ◌≤◌, true, length, Some, slice_index_or};
ghost use Rattle.tree.specs.Rules.{is_directory, parent_of};
ghost use Rattle.tree.specs.declared.node.Node.TheVariants.{Absent, Directory, File};

use crate::NODES;
use crate::node::Node;

/// 16 nodes. Node 0 is a directory and its own parent; the parent of another that is there
/// is a directory with a lower number; and no file is longer than a sector.
#[derive(Clone, Copy)]
pub struct Tree {
    pub(crate) nodes: [Node; NODES],
    ghost size: { length nodes ≡ 16 },
    ghost root: { slice_index_or nodes 0 Absent ≡ Directory 0 },
    ghost lower: { ((k p : ℕ) → 0 < k → parent_of (slice_index_or nodes k Absent) ≡ Some p → p < k) },
    ghost directories: { ((k p : ℕ) → parent_of (slice_index_or nodes k Absent) ≡ Some p → is_directory (slice_index_or nodes p Absent) ≡ true) },
    ghost lengths: { ((k p l h : ℕ) → slice_index_or nodes k Absent ≡ File p l h → l ≤ 512) },
}
