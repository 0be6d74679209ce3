//! How a node is written.
ghost use Rattle.std.specs.Prelude.{Some};
ghost use Rattle.tree.specs.Texts.{written};

use crate::node::Node;
use std::fmt;

// By hand: the clause below says which text, and a derived one has none.
impl fmt::Display for Node {
    ghost output = { λ n. Some (written n) };

    #[tactic(auto, using(crate::proofs::Digits::eight))]
    fn fmt<W: fmt::Write>(&self, f: &mut fmt::Formatter<W>) -> fmt::Result {
        match *self {
            Node::Absent => write!(f, "absent"),
            Node::Directory { parent } => write!(f, "d {parent}"),
            Node::File {
                parent,
                length,
                print,
            } => write!(f, "f {parent} {length} {print:08x}"),
        }
    }
}
