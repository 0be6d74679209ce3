//! Entries and whole recordings applied to image stores; images compared and copied.
#![tactic(auto)]

mod apply;
mod compare;
mod declined;
mod entries;
mod replay;

pub use apply::{Outside, apply_entry};
pub use compare::{CountsDiffer, changed_sectors, copy_image};
pub use declined::Declined;
pub use replay::replay_recording;
