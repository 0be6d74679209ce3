//! The marks of a recording.

/// What a mark says of a node from here on.
#[derive(Clone, Copy, PartialEq, Eq, Debug)]
pub enum Mark {
    /// The node may be a file.
    File {
        node: u8,
        parent: u8,
        length: u16,
        print: u32,
    },
    /// The node may be a directory.
    Directory {
        node: u8,
        parent: u8,
    },
    /// The node may be absent.
    Absent {
        node: u8,
    },
    /// The sync of the node has returned.
    Sync {
        node: u8,
    },
    /// Nothing.
    Comment,
}
