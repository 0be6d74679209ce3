//! Disk images as stores of 512-byte sectors: what a store is, the store over a row of bytes,
//! and the overlay that keeps its writes to itself.
#![tactic(auto)]

mod flat;
mod overlay;
mod refusal;
mod rows;
mod store;

pub use flat::Flat;
pub use overlay::Overlay;
pub use refusal::Refusal;
pub use store::{ImageStore, copy_sector, fetch};

/// The bytes of a sector.
pub const SECTOR: usize = 512;

/// The most sectors that a store has.
pub const MOST: usize = 64;
