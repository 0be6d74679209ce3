//! The states of a crash point: how many there are, and the way from one to the next.
#![tactic(auto)]

mod count;
mod places;

pub use count::{MOST_STATES, check_points, point_states};
pub use places::{LengthsDiffer, advance};
