//! A recording's bytes read into memory, with every check that comes before the crash points.
#![tactic(auto)]

mod asking;
mod push;
mod reading;
mod refusal;

pub use reading::read_trace;
pub use refusal::Refusal;
