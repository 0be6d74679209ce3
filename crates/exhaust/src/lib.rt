//! Every state of a recording's list given and judged, one after the other.
#![tactic(auto)]

mod explore;
mod watch;

pub use explore::{MOST_STATES_IN_ALL, explore_all};
pub use watch::{Stopped, Watch};
