//! The candidates of a node at a point, by the marks.
ghost use Rattle.std.specs.Prelude.{◌≡◌, List, Some, None, if◌then◌else◌};
ghost use Rattle.crash.specs.Nodes.{is_put, value_of, node_turn};
ghost use Rattle.trace.specs.Meaning.{marks_of};
ghost use Rattle.candidates.specs.Turns.{turned};
ghost use Rattle.candidates.specs.Noding.{NodeGathered};

use crate::eight::Few;
use crate::refusal::Refusal;
use crate::turns::Turn;
use crate::walk::walk;
use mark::Mark;
use trace::Trace;
use tree::Node;

/// The value that a mark puts on a node.
fn put_by(mark: Mark, node: usize) -> Option<Node>
    ensures { result ≡ (if is_put mark node then Some (value_of mark) else None) }
{
    let (k, value) = match mark {
        Mark::File {
            node,
            parent,
            length,
            print,
        } => (
            node,
            Node::File {
                parent,
                length,
                print,
            },
        ),
        Mark::Directory { node, parent } => (node, Node::Directory { parent }),
        Mark::Absent { node } => (node, Node::Absent),
        Mark::Sync { .. } | Mark::Comment => return None,
    };
    (usize::from(k) == node).then_some(value)
}

/// What a mark does to the history of a node.
fn turn(mark: Mark, node: usize) -> Turn<Node>
    ensures { (held : List Node) → turned result held ≡ node_turn mark node held }
{
    Turn {
        settles: matches!(mark, Mark::Sync { node: k } if usize::from(k) == node),
        puts: put_by(mark, node),
        fua: false,
    }
}

/// The values that a node may have at a point, if it has `start` in the tree recovered from the
/// base; or the first point up to there at which they are more than 8.
pub fn node_values(
    trace: &Trace,
    start: Node,
    node: usize,
    point: usize,
) -> Result<Few<Node>, Refusal>
    ensures { NodeGathered start (marks_of trace.now) node point result }
{
    walk(start, point, |k| turn(trace.mark(k), node))
}
