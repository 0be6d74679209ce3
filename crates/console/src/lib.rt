//! What the programs share: how a program is called, files with messages that name them, and
//! printable text.
#![tactic(auto)]

mod failed;
mod files;
mod program;
mod text;
mod usage;

pub use failed::Failed;
pub use files::Input;
pub use program::Program;
pub use text::printable;
pub use usage::Usage;
