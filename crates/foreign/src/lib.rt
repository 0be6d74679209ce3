//! The library in a stranger's hands: a store and a file system that the library does not know, and runs over them. What
//! is promised of a run holds here too, from the library's contracts alone.
#![tactic(auto)]

mod counted;
mod faulty;
mod first;
mod piled;
#[cfg(test)]
mod tables;
mod twice;

pub use counted::{Counted, SECTORS};
pub use faulty::Faulty;
pub use first::{First, judge_first};
pub use piled::{Pile, Searched, pile, search_pile};
pub use twice::{Twice, load_twice};
