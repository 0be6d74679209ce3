//! Text that can be printed.
ghost use Rattle.std.specs.Prelude.{◌≡◌, ◌++◌, IfOk, OnOk, string_bytes};
ghost use Rattle.console.specs.Texts.{plain, shown, shown_byte};

use std::alloc::{AllocError, Global};

/// Whether a byte is printable ASCII and no backslash.
fn is_plain(byte: u8) -> bool
    ensures { result ≡ plain byte }
{
    matches!(byte, b' '..=b'~') && byte != b'\\'
}

/// Adds what is shown of a byte.
#[tactic(auto, using(std::proofs::lemmas::Fmt::hex_byte))]
fn push_byte(shown: &mut String, byte: u8) -> Result<(), AllocError>
    ensures { OnOk result (string_bytes shown.new ≡ string_bytes shown.old ++ shown_byte byte) }
{
    if is_plain(byte) {
        shown.push(char::from(byte))
    } else {
        write!(shown, "\\x{byte:02x}")
    }
}

/// A text of any bytes, with those that are no printable ASCII as `\xNN`.
pub fn printable(heap: Global, text: &[u8]) -> Result<String, AllocError>
    ensures { IfOk result (λ s. string_bytes s ≡ shown text.now) }
{
    let mut shown = String::new(heap);
    for byte in text {
        push_byte(&mut shown, *byte)?;
    }
    Ok(shown)
}
