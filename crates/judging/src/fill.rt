//! Finding the values that each node may have.
ghost use Rattle.std.specs.Prelude.{◌≡◌, ℕ, []};
ghost use Rattle.trace.specs.Meaning.{marks_of};
ghost use Rattle.judging.specs.Tables.{values_in, Valued};

use crate::values::Values;
use candidates::{Few, Refusal, node_values};
use trace::Trace;
use tree::{NODES, Node, Tree};

impl Values {
    /// No values at all.
    pub fn none() -> Values
        ensures { (n : ℕ) → values_in result n ≡ [] }
    {
        let nodes = [Few::empty(Node::Absent); NODES];
        Values { nodes }
    }

    /// The values that each node may have at a point, if `tree` is recovered from the base; or
    /// the first point up to there at which a node has more than 8.
    pub fn at(trace: &Trace, tree: &Tree, point: usize) -> Result<Values, Refusal>
        ensures { Valued tree.now.nodes (marks_of trace.now) point result }
    {
        let mut values = Values::none();
        for (n, few) in values.nodes.iter_mut().enumerate() {
            *few = node_values(trace, tree.node(n), n, point)?;
        }
        Ok(values)
    }
}
