//! The texts of marks: what a mark spells, and the reader of it.
#![tactic(auto)]

mod hex;
mod mark;
mod numbers;
mod reader;
mod refusal;

pub use mark::Mark;
pub use reader::{at_most_one, read_mark};
pub use refusal::Refusal;
