//! The nodes of a tree.

use thiserror::Error;

/// What stands under a node's number.
#[derive(Clone, Copy, PartialEq, Eq, Debug, Default)]
pub enum Node {
    #[default]
    Absent,
    Directory { parent: u8 },
    File { parent: u8, length: u16, print: u32 },
}

/// A node that the rules do not allow where it was to stand.
#[derive(Clone, Copy, PartialEq, Eq, Debug, Error)]
#[error("the rules do not allow the node here")]
pub struct Misplaced;
