//! A tree of 16 nodes, built node by node, and the print of a file's bytes.
#![tactic(auto)]

mod build;
mod builder;
mod list;
mod listing;
mod node;
mod nodes;
mod prints;
mod text;

pub use builder::Builder;
pub use node::{Misplaced, Node};
pub use nodes::Tree;
pub use prints::{example, print};

/// The nodes of a tree.
pub const NODES: usize = 16;
