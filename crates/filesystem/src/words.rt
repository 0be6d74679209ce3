//! Words of 32 bits.
ghost use Rattle.std.specs.Prelude.{◌≡◌, slice_index};
ghost use Rattle.filesystem.specs.Words.{word_at, kind, rest, is_word};

/// Byte `i` of a sector, 0 past its end.
fn byte_at(sector: &[u8], i: usize) -> u8
    ensures { result ≡ slice_index sector.now i }
{
    sector.get(i).copied().unwrap_or(0)
}

// Any slice: an array would ask more of callers.
/// Word `i` of a sector, the least byte first; bytes past the sector's end count as 0.
#[tactic(auto, unfolding(crate::specs::Words::word_at))]
pub fn word_at(sector: &[u8], i: u8) -> u32
    ensures { result ≡ word_at sector.now i }
{
    let at = 4 * usize::from(i);
    u32::from_le_bytes([
        byte_at(sector, at),
        byte_at(sector, at + 1),
        byte_at(sector, at + 2),
        byte_at(sector, at + 3),
    ])
}

// A kind is a number in the layout too: what it says depends on the place of the word.
/// The top two bits of a word.
pub fn kind_of(word: u32) -> u32
    ensures { result ≡ kind word }
{
    word >> 30
}

/// The low 30 bits of a word.
pub fn rest_of(word: u32) -> u32
    ensures { result ≡ rest word }
{
    word % 0x4000_0000
}

/// Whether `word` is of kind `k` with the rest `n`.
pub fn is_word(word: u32, k: u32, n: u32) -> bool
    ensures { result ≡ is_word k n word }
{
    kind_of(word) == k && rest_of(word) == n
}
