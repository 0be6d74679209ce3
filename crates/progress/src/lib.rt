//! How far a run is: its condition, the standing state, the counts, and the report made of them.
#![tactic(auto)]

mod condition;
mod moves;
mod report;

pub use condition::{Condition, Progress};
pub use report::{Report, Verdict};
