//! Decimal numbers at the front of a text.
ghost use Rattle.std.specs.Prelude.{◌≡◌, ◌≤◌, length, slice_index, EachIndex};
ghost use Rattle.std.specs.Int.{IsInRange};
ghost use Rattle.std.specs.Str.Parse.{digits_value as value_of};
ghost use Rattle.mark.specs.Numbers.{Run, Reads};

/// A number, and what follows it.
#[derive(Clone, Copy, Debug)]
pub struct Number<'a> {
    pub value: u16,
    pub rest: &'a [u8],
}

/// How many digits stand at the front.
fn run(text: &[u8]) -> usize
    ensures { Run text.now result }
{
    text.iter().take_while(|b| b.is_ascii_digit()).count()
}

/// The number that at most three digits write.
fn value(digits: &[u8]) -> u16
    requires short { length digits.now ≤ 3 }
    requires digits { EachIndex digits.now (λ k. IsInRange 48 57 (slice_index digits.now k)) }
    ensures { result ≡ value_of 10 digits.now }
{
    // Not a fold: its step would not know that there is room for one digit more.
    let mut sum = 0;
    for b in digits {
        sum = sum * 10 + u16::from(*b - b'0');
    }
    sum
}

/// The number at the front, without leading zeros and of at most three digits.
pub fn read(text: &[u8]) -> Option<Number<'_>>
    ensures { Reads text.now result }
{
    let n = run(text);
    if n == 0 || n > 3 || (n > 1 && text[0] == b'0') {
        return None;
    }
    let (digits, rest) = text.split_at(n);
    Some(Number {
        value: value(digits),
        rest,
    })
}
