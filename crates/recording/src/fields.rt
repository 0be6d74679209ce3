//! Fields and zeros in a row of bytes.
ghost use Rattle.std.specs.Prelude.{◌≡◌, ℕ, ◌+◌, ◌≤◌, length};
ghost use Rattle.recording.specs.Numbers.{number, part, all_zero};
ghost use Rattle.recording.specs.Items.{flags_of};

use crate::entry::Flags;

/// The `N` bytes at `at`.
pub fn field<const N: usize>(row: &[u8], at: usize) -> [u8; N]
    requires { at + N ≤ length row.now }
    ensures { result ≡ part row.now at N }
{
    row[at..at + N].try_into().unwrap()
}

/// The 64-bit number at `at`.
pub fn number64(row: &[u8], at: usize) -> u64
    requires { at + 8 ≤ length row.now }
    ensures { result ≡ number (part row.now at 8) }
{
    u64::from_le_bytes(field(row, at))
}

/// Whether each byte is 0.
pub fn zeros(row: &[u8]) -> bool
    ensures { result ≡ all_zero row.now }
{
    row.iter().all(|b| *b == 0)
}

impl Flags {
    /// The flags that the numbers of a flag field say.
    pub fn from_bits(bits: u64) -> Flags
        ensures { result ≡ flags_of bits }
    {
        Flags {
            flush: bits & 1 != 0,
            fua: bits & 2 != 0,
            discard: bits & 4 != 0,
            mark: bits & 8 != 0,
            metadata: bits & 16 != 0,
        }
    }
}
