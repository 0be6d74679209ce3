//! Whether a transaction stands.
ghost use Rattle.std.specs.Prelude.{◌≡◌, true, false, MatchOption};
ghost use Rattle.arrayvec.specs.ArrayVec.{array_vec_len};
ghost use Rattle.journalled.specs.Journal.{sequence_of, descriptor, homes_in, commits, stands};

use crate::descriptor::{Homes, described};
use crate::sums::journal_sum;
use filesystem::{is_word, rest_of, word_at};
use image::{ImageStore, fetch};

/// The image's sequence number.
fn sequence_of<S: ImageStore>(image: &S) -> u32
    ensures { result ≡ sequence_of (S.sectors image.now) }
{
    rest_of(word_at(&fetch(image, 0), 2))
}

/// Whether the sector behind those of the transaction commits it with the sequence number.
#[tactic(auto, unfolding(crate::specs::Journal::commits))]
fn is_committed<S: ImageStore>(sequence: u32, image: &S, homes: &Homes) -> bool
    ensures { result ≡ commits sequence (S.sectors image.now) (array_vec_len homes.now) }
{
    let size = homes.len();
    let sector = fetch(image, 3 + size);
    is_word(word_at(&sector, 0), 1, sequence)
        && is_word(word_at(&sector, 1), 3, journal_sum(image, size))
}

/// The homes of the transaction that stands, if one does.
#[tactic(auto, using(crate::proofs::Recovers::described_stands))]
pub fn standing<S: ImageStore>(image: &S) -> Option<Homes>
    ensures { MatchOption result (stands (S.sectors image.now) ≡ false) (λ homes. (stands (S.sectors image.now) ≡ true) × (homes.items ≡ homes_in (descriptor (S.sectors image.now)))) }
{
    let sequence = sequence_of(image);
    let homes = described(sequence, image.count(), &fetch(image, 2))?;
    is_committed(sequence, image, &homes).then_some(homes)
}
