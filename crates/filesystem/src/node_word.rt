//! What the word of a node says.
ghost use Rattle.std.specs.Prelude.{◌≡◌, ℕ, MatchOption};
ghost use Rattle.filesystem.specs.Words.{word_stands};
ghost use Rattle.filesystem.specs.NodeWords.{Says};
ghost use Rattle.filesystem.specs.declared.node_word.NodeWord.{NodeWord};

use crate::words::kind_of;

/// What the word of a node says: what the node is, its parent, and of a file its length and
/// its data sector.
#[derive(Clone, Copy, PartialEq, Eq, Debug)]
pub enum NodeWord {
    Absent,
    Directory { parent: u8 },
    File { parent: u8, length: u16, sector: u8 },
}

impl NodeWord {
    /// What `word` says, unless bits are set in it that say nothing.
    pub fn read(word: u32) -> Option<NodeWord>
        ensures { MatchOption result ((said : NodeWord) → Says said word → ⊥) (λ said. Says said word) }
    {
        // No cast loses a bit: each is of a remainder that its type holds, and no `From` knows that it is one.
        let parent = ((word >> 26) % 16) as u8;
        match kind_of(word) {
            0 if word == 0 => Some(NodeWord::Absent),
            1 if word % 0x400_0000 == 0 => Some(NodeWord::Directory { parent }),
            2 if (word >> 8) % 256 == 0 => Some(NodeWord::File {
                parent,
                length: ((word >> 16) % 1024) as u16,
                sector: (word % 256) as u8,
            }),
            _ => None,
        }
    }

    /// Whether node `k` may be so in an image of `count` sectors, whose files' bytes lie from
    /// sector `lowest` on.
    pub fn stands(self, lowest: usize, count: usize, k: usize) -> bool
        ensures { (word : ℕ) → Says self word → result ≡ word_stands lowest count k word }
    {
        match self {
            _ if k == 0 => matches!(self, NodeWord::Directory { parent: 0 }),
            NodeWord::File {
                length: 0,
                sector,
                ..
            } => sector == 0,
            NodeWord::File { sector, .. } => (lowest..count).contains(&usize::from(sector)),
            _ => true,
        }
    }
}
