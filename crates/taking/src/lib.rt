//! A recording taken: its bytes read into memory, and its crash points within the limits.
#![tactic(auto)]

mod refusal;
mod take;

pub use refusal::Refusal;
pub use take::take_recording;
