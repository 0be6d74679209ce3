//! The entries of a recording that is known to be one.
ghost use Rattle.std.specs.Prelude.{◌≡◌, true, length, is_ok, MatchResult, Err};
ghost use Rattle.std.specs.Iterator.{YieldsFirstBy, at_most};
ghost use Rattle.recording.specs.Reading.{item_seen};
ghost use Rattle.recording.specs.Recorded.{recorded, remaining, items_of};

use recording::{Entry, Reader, Refusal, validate};

/// The entries that are left of a recording which no reader declines.
#[derive(Clone, Copy)]
pub(crate) struct Entries<'a> {
    reader: Reader<'a>,
    ghost sound: { is_ok (remaining reader) ≡ true },
}

impl<'a> Entries<'a> {
    /// The entries of `bytes`, or the first reason to decline it.
    #[tactic(auto, using(crate::proofs::Entering::counted_ok, recording::proofs::Remaining::remaining_whole))]
    pub(crate) fn of(bytes: &'a [u8]) -> Result<Entries<'a>, Refusal>
        ensures { MatchResult result (λ entries. remaining entries.reader ≡ recorded bytes.now) (λ refusal. recorded bytes.now ≡ Err refusal) }
    {
        validate(bytes)?;
        let reader = Reader::open(bytes)?;
        Ok(Entries { reader })
    }

    /// How many entries are left.
    #[tactic(auto, using(crate::proofs::Entering::left_is))]
    pub(crate) fn left(&self) -> u64
        ensures { result ≡ length (items_of (remaining self.now.reader)) }
    {
        self.reader.left()
    }
}

impl<'a> Iterator for Entries<'a> {
    type Item = Entry<'a>;

    ghost next_gives = { YieldsFirstBy item_seen (λ s. items_of (remaining s.reader)) };

    ghost remaining = { λ s. at_most s.reader.left };

    #[tactic(auto, using(crate::proofs::Entering::not_declined, crate::proofs::Entering::stays_sound))]
    fn next(&mut self) -> Option<Entry<'a>> {
        self.reader.next().unwrap()
    }
}
