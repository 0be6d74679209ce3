//! An image recovered apart from the store that holds it, and the lines that say what came of it.
#![tactic(auto)]

mod apart;
mod lines;

pub use apart::recover_apart;
pub use lines::outcome_lines;
