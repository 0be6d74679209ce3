//! The lines that say what came of a recovery.
ghost use Rattle.std.specs.Prelude.{◌≡◌, IfOk, string_bytes};
ghost use Rattle.filesystem.specs.Outcomes.{code_of};
ghost use Rattle.recovery.specs.Results.{outcome_of};
ghost use Rattle.recovery.specs.Lines.{node_lines, pair_line, lines_of};

use filesystem::Fault;
use std::alloc::{AllocError, Global};
use std::fmt::Write;
use tree::Tree;

/// The lines of a tree's nodes.
#[tactic(auto, unfolding(crate::specs::Lines::node_lines))]
fn tree_lines(heap: Global, tree: &Tree) -> Result<String, AllocError>
    ensures { IfOk result (λ s. string_bytes s ≡ node_lines tree.now.nodes 16) }
{
    let mut lines = String::new(heap);
    for (k, node) in tree.nodes().iter().enumerate() {
        writeln!(lines, "{k} {node}")?;
    }
    Ok(lines)
}

/// The line of a fault.
fn fault_line(heap: Global, fault: Fault) -> Result<String, AllocError>
    ensures { IfOk result (λ s. string_bytes s ≡ pair_line (code_of fault)) }
{
    let (number, place) = fault.code();
    format!(in heap; "fault {number} {place}\n")
}

/// The lines of a recovery's answer.
pub fn outcome_lines(heap: Global, answer: &Result<Tree, Fault>) -> Result<String, AllocError>
    ensures { IfOk result (λ s. string_bytes s ≡ lines_of (outcome_of answer.now)) }
{
    match answer {
        Ok(tree) => tree_lines(heap, tree),
        Err(fault) => fault_line(heap, *fault),
    }
}
