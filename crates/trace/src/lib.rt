//! Recordings in memory: what each entry does, with the data sectors that entries write.
#![tactic(auto)]

mod contents;
mod steps;

pub use steps::{Source, Step, Trace};
