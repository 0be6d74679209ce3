//! Decimal numbers.
ghost use Rattle.std.specs.Prelude.{MatchOption, ℕ};
ghost use Rattle.script.specs.Spelling.{Number};

/// The number that a text of digits writes, or the greatest of 64 bits if it is more.
pub fn number(text: &[u8]) -> Option<usize>
    ensures { MatchOption result ((v : ℕ) → Number v text.now → ⊥) (λ v. Number v text.now) }
{
    if text.is_empty() {
        return None;
    }
    let mut sum = 0usize;
    for b in text {
        if !b.is_ascii_digit() {
            return None;
        }
        sum = sum
            .saturating_mul(10)
            .saturating_add(usize::from(*b - b'0'));
    }
    Some(sum)
}
