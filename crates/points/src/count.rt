//! How many states the points of a recording have, and which points are declined.
ghost use Rattle.std.specs.Prelude.{◌≡◌, ℕ, ◌*◌, min};
ghost use Rattle.trace.specs.Meaning.{recording_of, marks_of};
ghost use Rattle.points.specs.Counting.{SectorsCounted, NodesChecked, Counted, Checked};

use candidates::{Refusal, candidates_of, node_values};
use image::ImageStore;
use trace::Trace;
use tree::{NODES, Node};

/// The most states that a point may have.
pub const MOST_STATES: u64 = 1_048_576;

/// So many states times so many candidates; a number above the limit counts as the next after it.
fn widened(states: u64, candidates: usize) -> u64
    ensures { result ≡ min (states * candidates) 1048577 }
{
    // `u64` has no `From<usize>`.
    states
        .saturating_mul(candidates as u64)
        .min(MOST_STATES + 1)
}

/// The product of the sectors' numbers of candidates, counted up to one above the limit.
fn sector_states<S: ImageStore>(trace: &Trace, base: &S, point: usize) -> Result<u64, Refusal>
    ensures { SectorsCounted (recording_of (S.ImageStore.sectors base.now) trace.now) point result }
{
    // By number, since a store lends no slice of its sectors; a `try_fold` was tried, and the proof did not close.
    let mut states = 1;
    for s in 0..base.count() {
        let few = candidates_of(trace, base, s, point)?;
        states = widened(states, few.values().len());
    }
    Ok(states)
}

/// Whether no node has more than 8 candidates at a point or before it.
#[tactic(auto, using(crate::proofs::Limiting::node_declined, crate::proofs::Limiting::nodes_more))]
fn check_nodes(trace: &Trace, point: usize) -> Result<(), Refusal>
    ensures { NodesChecked (marks_of trace.now) point result }
{
    // Nodes are named by number.
    for node in 0..NODES {
        node_values(trace, Node::Absent, node, point)?;
    }
    Ok(())
}

// A recording is named by its trace and its base: the run holds the two apart, and would make a
// pair of them for one call. The point beside them changes from call to call.

/// The number of states of a point. A sector or a node with more than 8 candidates, at the point
/// or before it, comes before too many states.
#[tactic(auto, using(crate::proofs::Limiting::counted_sector, crate::proofs::Limiting::counted_node))]
pub fn point_states<S: ImageStore>(trace: &Trace, base: &S, point: usize) -> Result<u64, Refusal>
    ensures { Counted (recording_of (S.ImageStore.sectors base.now) trace.now) (marks_of trace.now) point result }
{
    let states = sector_states(trace, base, point)?;
    check_nodes(trace, point)?;
    if states > MOST_STATES {
        return Err(Refusal::States { point });
    }
    Ok(states)
}

/// Whether every point is within the limits; else the first that is not.
pub fn check_points<S: ImageStore>(trace: &Trace, base: &S) -> Result<(), Refusal>
    ensures { Checked (recording_of (S.ImageStore.sectors base.now) trace.now) (marks_of trace.now) result }
{
    // Points are named by number.
    for point in 0..=trace.len() {
        point_states(trace, base, point)?;
    }
    Ok(())
}
