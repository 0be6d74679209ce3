//! The tree that an image's node words mean.
ghost use Rattle.std.specs.Prelude.{◌≡◌, ℕ, false, ◌&&◌, [], ◌∷◌, ◌++◌, length, take, is_ok, if◌then◌else◌};
ghost use Rattle.tree.specs.Lists.{listed};
ghost use Rattle.tree.specs.Prints.{print_of};
ghost use Rattle.tree.specs.Rules.{allowed};
ghost use Rattle.image.specs.Fetched.{sector_of};
ghost use Rattle.filesystem.specs.Outcomes.{told};
ghost use Rattle.filesystem.specs.Words.{word_stands};
ghost use Rattle.filesystem.specs.NodeWords.{Says};
ghost use Rattle.filesystem.specs.Told.{ToldOne, ToldTree, ToldFault};
ghost use Rattle.filesystem.specs.Trees.{node_of, tree_of};

use crate::fault::Fault;
use crate::node_word::NodeWord;
use crate::words::word_at;
use image::{ImageStore, SECTOR, fetch};
use tree::{Builder, Misplaced, NODES, Node, Tree, print};

/// The print of the first `size` bytes of a sector, of all where it has no more.
fn front_print<S: ImageStore>(image: &S, sector: usize, size: usize) -> u32
    ensures { result ≡ print_of (take size (sector_of (S.sectors image.now) sector)) }
{
    let buffer = fetch(image, sector);
    print(&buffer[..size.min(SECTOR)])
}

/// The node that a word means by what it says.
fn meaning<S: ImageStore>(image: &S, said: NodeWord) -> Node
    ensures { (word : ℕ) → Says said word → result ≡ node_of (S.sectors image.now) word }
{
    match said {
        NodeWord::Absent => Node::Absent,
        NodeWord::Directory { parent } => Node::Directory { parent },
        NodeWord::File {
            parent,
            length,
            sector,
        } => Node::File {
            parent,
            length,
            print: front_print(image, usize::from(sector), usize::from(length)),
        },
    }
}

/// Lays the node that `word` means, unless the word or the node breaks a rule.
#[tactic(auto, using(crate::proofs::Saying::says_nothing))]
fn lay_word<S: ImageStore>(
    image: &S,
    lowest: usize,
    word: u32,
    builder: &mut Builder,
) -> Result<(), Misplaced>
    ensures answer { is_ok result ≡ (word_stands lowest (length (S.sectors image.now)) (length (listed builder.old.nodes)) word && allowed (listed builder.old.nodes) (length (listed builder.old.nodes)) (node_of (S.sectors image.now) word)) }
    ensures nodes { listed builder.new.nodes ≡ (if is_ok result then listed builder.old.nodes ++ node_of (S.sectors image.now) word ∷ [] else listed builder.old.nodes) }
{
    let said = NodeWord::read(word).ok_or(Misplaced)?;
    if !said.stands(lowest, image.count(), builder.laid()) {
        return Err(Misplaced);
    }
    builder.lay(meaning(image, said))
}

// Both callers hand on the tree that `recover` is handed, by a rule: an answer would only be put there.
/// Reads the tree. On a fault `tree` is as it was.
pub fn read_tree<S: ImageStore>(image: &S, lowest: usize, tree: &mut Tree) -> Result<(), Fault>
    ensures told { told result tree.new.nodes ≡ tree_of lowest (S.sectors image.now) }
    ensures tree { is_ok result ≡ false → tree.new ≡ tree.old }
{
    let sector = fetch(image, 1);
    let mut builder = Builder::new();
    // Nodes are named by number, a byte; `NODES` counts what arrays hold, and `u8` has no `From<usize>`.
    for k in 0..NODES as u8 {
        let fault = Fault::NodeWord { node: k };
        lay_word(image, lowest, word_at(&sector, k), &mut builder).map_err(|_| fault)?;
    }
    *tree = builder.finish().unwrap();
    Ok(())
}

/// What an outcome says of the nodes.
#[tactic(auto, using(crate::specs::Least::first_failing_lem), unfolding(crate::specs::Trees::tree_of))]
pub fn reading_laws()
    ensures one { ToldOne }
    ensures tree { ToldTree }
    ensures fault { ToldFault }
{}
