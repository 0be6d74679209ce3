//! The candidates of sectors and nodes at a crash point.
#![tactic(auto)]

mod distinct;
mod eight;
mod listing;
mod nodes;
mod refusal;
mod sectors;
mod turns;
mod walk;

pub use distinct::{candidates_of, leave_out};
pub use eight::Few;
pub use nodes::node_values;
pub use refusal::Refusal;
pub use sectors::gather;
