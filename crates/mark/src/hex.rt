//! Hexadecimal numbers.
ghost use Rattle.std.specs.Prelude.{◌≡◌, ℕ, ◌^◌, ◌<◌, MatchOption, ◌≢◌};
ghost use Rattle.std.specs.Char.{digit_char};
ghost use Rattle.tree.specs.Hex.{hexes};

/// The digit that `b` writes, if it is one of 0-9 and a-f.
fn nibble(b: u8) -> Option<u8>
    ensures { MatchOption result ((d : ℕ) → d < 16 → digit_char d ≢ b) (λ d. (d < 16) × (digit_char d ≡ b)) }
{
    // Not `to_digit`: it takes capital letters too.
    match b {
        b'0'..=b'9' => Some(b - b'0'),
        b'a'..=b'f' => Some(b - b'a' + 10),
        _ => None,
    }
}

/// The number that exactly eight hexadecimal digits write.
#[tactic(auto, using(crate::proofs::Hexes::room, crate::proofs::Hexes::hex_step, crate::proofs::Hexes::sixteen_more))]
pub fn eight(text: &[u8]) -> Option<u32>
    ensures { MatchOption result ((n : ℕ) → text.now ≢ hexes 8 n) (λ n. (text.now ≡ hexes 8 n) × (n < 2 ^ 32)) }
{
    if text.len() != 8 {
        return None;
    }
    // Not a fold: its step would not know that there is room for one digit more.
    let mut sum = 0;
    for b in text {
        sum = sum * 16 + u32::from(nibble(*b)?);
    }
    Some(sum)
}
