//! A run worked by a caller that chooses each call upon the answers to those before.
#![tactic(auto)]

mod caller;
mod working;

pub use caller::Caller;
pub use working::{whole_run, work};
