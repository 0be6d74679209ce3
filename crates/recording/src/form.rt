//! The form of an entry's sector.
ghost use Rattle.std.specs.Prelude.{◌≡◌, ℕ, ◌≤◌, length, true, false, MatchOption};
ghost use Rattle.recording.specs.Items.{flags_of};
ghost use Rattle.recording.specs.Entries.{mark_flawed, text_flawed, flags_flawed, fields_flawed, malformed};
ghost use Rattle.recording.specs.Reading.{FieldsIn};

use crate::entry::Flags;
use crate::fields::{number64, zeros};
use image::SECTOR;

/// The most bytes of a mark's text: what its sector has behind the four numbers.
const MOST_TEXT: usize = 480;

/// The numbers of an entry's sector.
#[derive(Clone, Copy)]
pub struct Fields {
    pub sector: u64,
    pub sectors: u64,
    pub bits: u64,
    pub size: usize,
}

impl Fields {
    // A slice, and no array by `first_chunk`, which was tried: the definitions are of all that is left, and that its
    // first sector says the same of each field and of the zeros takes a file of lemmas, for the one `requires` that
    // would go.
    /// The numbers at the front of `rest`; none where the sector there breaks a rule.
    pub fn read(rest: &[u8]) -> Option<Fields>
        requires { 512 ≤ length rest.now }
        ensures { MatchOption result (malformed rest.now ≡ true) (λ f. (malformed rest.now ≡ false) × FieldsIn f rest.now) }
    {
        let fields = Fields {
            sector: number64(rest, 0),
            sectors: number64(rest, 8),
            bits: number64(rest, 16),
            // A length, and no `From` leads from `u64` to `usize`; the cast is proved to lose no bit.
            size: number64(rest, 24) as usize,
        };
        if fields.are_flawed() || !zeros(&rest[32 + fields.size..SECTOR]) {
            return None;
        }
        Some(fields)
    }

    /// The flags.
    pub fn flags(&self) -> Flags
        ensures { result ≡ flags_of self.now.bits }
    {
        Flags::from_bits(self.bits)
    }

    /// Whether a mark has another flag, or names sectors.
    fn is_mark_flawed(&self) -> bool
        ensures { result ≡ mark_flawed self.now.sector self.now.sectors self.now.bits (flags_of self.now.bits) }
    {
        self.flags().mark && (self.bits != 8 || self.sector != 0 || self.sectors != 0)
    }

    /// Whether the text is too long, or stands without a mark.
    fn is_text_flawed(&self) -> bool
        ensures { result ≡ text_flawed self.now.size (flags_of self.now.bits) }
    {
        self.size > MOST_TEXT || (self.size != 0 && !self.flags().mark)
    }

    /// Whether flags exclude one another, or there is nothing to do.
    fn are_flags_flawed(&self) -> bool
        ensures { result ≡ flags_flawed self.now.sectors (flags_of self.now.bits) }
    {
        let flags = self.flags();
        (flags.discard && flags.fua) || (self.sectors == 0 && !flags.mark && !flags.flush)
    }

    /// Whether the numbers break a rule; 32 and more has a flag above 16.
    fn are_flawed(&self) -> bool
        ensures { result ≡ fields_flawed self.now.sector self.now.sectors self.now.bits self.now.size }
    {
        self.bits >= 32 || self.is_mark_flawed() || self.is_text_flawed() || self.are_flags_flawed()
    }
}
