//! The journalled file system: a recovery carries out the transaction that stands.
#![tactic(auto)]

mod descriptor;
mod replay;
mod sums;
mod system;
mod theorems;
mod transaction;

pub use system::Journalled;
pub use theorems::{examples, laws};
