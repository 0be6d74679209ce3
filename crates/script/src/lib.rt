//! Scripts: the calls that the lines of a text spell.
#![tactic(auto)]

mod cut;
mod line;
mod numbers;
mod reader;
mod refusal;
mod spoken;

pub use reader::read_script;
pub use refusal::Refusal;
pub use spoken::Spoken;
