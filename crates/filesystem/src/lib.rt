//! File systems on an image of sectors: what one is, and what all share: words, the head, and
//! the tree that node words mean.
#![tactic(auto)]

mod fault;
mod head;
mod node_word;
mod reading;
mod system;
mod words;

pub use fault::Fault;
pub use head::{check_head, head_laws};
pub use reading::{read_tree, reading_laws};
pub use system::FileSystem;
pub use words::{is_word, kind_of, rest_of, word_at};
