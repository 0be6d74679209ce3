//! A text cut at a byte.
ghost use Rattle.std.specs.Prelude.{MatchOption, All, ◌≢◌};
ghost use Rattle.script.specs.Lines.{Cut};

/// What stands before the first such byte, and what behind it, if the byte is there.
pub fn cut(text: &[u8], byte: u8) -> Option<(&[u8], &[u8])>
    ensures { MatchOption result (All (λ b. b ≢ byte) text.now) (λ x. Cut byte text.now x.0.now x.1.now) }
{
    let at = text.iter().position(|b| *b == byte)?;
    let (front, rest) = text.split_at(at);
    Some((front, &rest[1..]))
}
