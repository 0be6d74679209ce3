//! Recordings of block writes in the layout of Linux dm-log-writes, version 1: the layout, the
//! reader that goes through one entry by entry, and the entries.
#![tactic(auto)]

mod entry;
mod extent;
mod fields;
mod form;
mod reader;
mod refusal;
mod whole;

pub use entry::{Entry, Flags, Header, Reader};
pub use extent::Extent;
pub use refusal::Refusal;
pub use whole::validate;
