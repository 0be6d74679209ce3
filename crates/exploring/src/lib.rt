//! Explorations and scripts, and what is printed of them; the programs `explore` and `explore_cases` are over this.
#![tactic(auto)]

mod lines;
mod plain;
mod scripted;
mod telling;
mod whole;

pub use lines::{write_answer, write_refusal, write_report, write_state};
pub use plain::{Plain, Quiet};
pub use scripted::follow_script;
pub use telling::InWords;
pub use whole::{Outcome, explore, write_outcome};
