//! Histories: the candidates of one key, in order, in 8 cells that the caller lends.
#![tactic(auto)]

mod cells;
mod refusal;
mod values;

pub use cells::History;
pub use refusal::Refusal;

/// The cells of a history.
pub const CELLS: usize = 8;
