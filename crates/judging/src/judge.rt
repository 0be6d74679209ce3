//! Judging trees by the values that each node may have.
ghost use Rattle.std.specs.Prelude.{◌≡◌, ℕ, false};
ghost use Rattle.image.specs.Shown.{shown, holds};
ghost use Rattle.filesystem.specs.Outcomes.{a_tree};
ghost use Rattle.meaning.specs.Judgements.{is_fine, judgement};
ghost use Rattle.judging.specs.Codes.{code_of};
ghost use Rattle.judging.specs.Tables.{values_in};

use crate::judgement::Judgement;
use crate::values::Values;
use filesystem::FileSystem;
use image::{ImageStore, Overlay};
use tree::{NODES, Node, Tree};

impl Values {
    /// The values that node `n` may have; none where there is no such node.
    fn of(&self, n: usize) -> &[Node]
        ensures { result.now ≡ values_in self.now n }
    {
        self.nodes.get(n).map_or(&[], |few| few.values())
    }

    /// Whether node `n` of a tree has one of its values.
    fn admits(&self, tree: &Tree, n: usize) -> bool
        ensures { result ≡ is_fine (values_in self.now) tree.now.nodes n }
    {
        let node = tree.node(n);
        // No `contains`, for speed: its loop is made for long slices, and most nodes have one value.
        self.of(n).iter().any(|value| *value == node)
    }

    /// Whether each node of a tree has one of its values; else the lowest that has not.
    pub fn judge(&self, tree: &Tree) -> Judgement
        ensures { code_of result ≡ judgement (values_in self.now) (a_tree tree.now.nodes) }
    {
        // Nodes are named by a u8; `NODES` counts what arrays hold, and `u8` has no `From<usize>`.
        (0..NODES as u8)
            .find(|node| !self.admits(tree, usize::from(*node)))
            .map_or(Judgement::Admitted, |node| Judgement::Unadmitted { node })
    }
}

// `below` relates the overlay before to the one after, which no type does.
/// Recovers the image of the overlay, judges the tree, and drops what recovery wrote.
pub fn judge_state<S: ImageStore, F: FileSystem>(
    fs: &F,
    scratch: &mut Overlay<S>,
    values: &Values,
) -> Judgement
    ensures judged { code_of result ≡ judgement (values_in values.now) (F.FileSystem.outcome fs.now (shown S.ImageStore.sectors scratch.old)) }
    ensures below { scratch.new.below ≡ scratch.old.below }
    ensures dropped { shown S.ImageStore.sectors scratch.new ≡ S.ImageStore.sectors scratch.old.below }
    ensures none { (k : ℕ) → holds scratch.new k ≡ false }
{
    let mut tree = Tree::bare();
    let answer = fs.recover(scratch, &mut tree);
    let found = answer.map_or(Judgement::Faulty, |()| values.judge(&tree));
    scratch.forget();
    found
}
