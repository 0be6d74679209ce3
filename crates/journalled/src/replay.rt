//! Carries a transaction out.
ghost use Rattle.std.specs.Prelude.{◌≡◌, ◌<◌, ◌≤◌, true, length, slice_set};
ghost use Rattle.image.specs.Fetched.{sector_of};
ghost use Rattle.journalled.specs.Journal.{size_of, descriptor, homes_in, stands, copied, put_word, advanced, recovered};

use crate::transaction::standing;
use filesystem::{rest_of, word_at};
use image::{ImageStore, SECTOR, copy_sector, fetch};

/// Replaces word `i` of a sector.
#[tactic(auto, using(crate::proofs::Pasting::word_pasted))]
fn put_word(sector: &mut [u8; SECTOR], i: usize, word: u32)
    requires { i < 128 }
    ensures { sector.new ≡ put_word sector.old i word }
{
    sector[4 * i..4 * i + 4].copy_from_slice(&word.to_le_bytes());
}

/// Gives sector 0 the next sequence number.
fn advance<S: ImageStore>(image: &mut S)
    requires { 0 < length (S.sectors image.old) }
    ensures after { S.sectors image.new ≡ slice_set (S.sectors image.old) 0 (advanced (sector_of (S.sectors image.old) 0)) }
    ensures kept { S.keeps image.old image.new }
{
    let mut sector = fetch(image, 0);
    let sequence = rest_of(word_at(&sector, 2));
    put_word(&mut sector, 2, 0xC000_0000 + rest_of(sequence + 1));
    image.write(0, &sector).unwrap();
}

/// Copies the sectors of the transaction to their homes.
#[tactic(auto, using(crate::proofs::Naming::many, crate::proofs::Naming::named_inside, crate::proofs::Naming::named_step, image::specs::Fetched::sector_is, crate::specs::Copies::copied_none, crate::specs::Copies::length_copied, crate::specs::Copies::few))]
fn copy_homes<S: ImageStore>(image: &mut S, homes: &[usize])
    requires room { 16 ≤ length (S.sectors image.old) }
    requires stood { stands (S.sectors image.old) ≡ true }
    requires named { homes.now ≡ homes_in (descriptor (S.sectors image.old)) }
    ensures after { S.sectors image.new ≡ copied (S.sectors image.old) (size_of (S.sectors image.old)) }
    ensures kept { S.keeps image.old image.new }
{
    for (i, home) in homes.iter().enumerate() {
        copy_sector(image, 3 + i, *home).unwrap();
    }
}

/// Carries out the transaction that stands, if one does.
#[tactic(auto, using(crate::proofs::Recovers::none_stands, crate::proofs::Recovers::carried, crate::specs::Copies::length_copied))]
pub fn restore<S: ImageStore>(image: &mut S)
    requires { 16 ≤ length (S.sectors image.old) }
    ensures after { S.sectors image.new ≡ recovered (S.sectors image.old) }
    ensures kept { S.keeps image.old image.new }
{
    if let Some(homes) = standing(image) {
        copy_homes(image, homes.as_slice());
        advance(image);
    }
}
