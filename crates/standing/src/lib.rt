//! The standing crash state of a point, on an overlay: its first state, and the way from each to
//! the next.
#![tactic(auto)]

mod choice;
mod laying;
mod lists;
mod sectors;

pub use choice::Choice;
