//! The sector that describes a transaction.
ghost use Rattle.std.specs.Prelude.{◌≡◌, ◌≤◌, map, ◌==◌, ◌&&◌, ◌||◌, true, false, cond, Some, None, nat_le, nat_lt, MatchOption};
ghost use Rattle.std.specs.List.{range_with_len};
ghost use Rattle.filesystem.specs.Words.{kind, rest};
ghost use Rattle.journalled.specs.Journal.{home_in, homes_stand, describes, homes_in};

use arrayvec::ArrayVec;
use filesystem::{is_word, kind_of, rest_of, word_at};
use image::SECTOR;

/// The lowest data sector.
pub const LOWEST: usize = 10;

/// The most sectors of a transaction.
const MOST: usize = 6;

/// Where the sectors of a transaction belong, in their order.
pub type Homes = ArrayVec<usize, MOST>;

/// The home that a word names, if it is sector 1 or a data sector.
fn home_in(count: usize, word: u32) -> Option<usize>
    ensures { result ≡ cond (kind word == 3 && (rest word == 1 || (nat_le 10 (rest word) && nat_lt (rest word) count))) (Some (rest word)) None }
{
    // The cast loses no bit; `usize` has no `From<u32>`.
    let home = rest_of(word) as usize;
    (kind_of(word) == 3 && (home == 1 || (LOWEST..count).contains(&home))).then_some(home)
}

/// The homes of so many sectors, if all of them stand and differ.
fn read_homes(count: usize, sector: &[u8; SECTOR], size: usize) -> Option<Homes>
    requires { size ≤ 6 }
    ensures { MatchOption result (homes_stand count sector.now size ≡ false) (λ homes. (homes_stand count sector.now size ≡ true) × (homes.items ≡ map (home_in sector.now) (range_with_len 0 size))) }
{
    let mut homes = Homes::new();
    // A loop: each home is compared with those before it, and one that does not stand ends it.
    for i in 0..size {
        // At most six homes: the cast is proved to lose no bit, and `u8` has no `From<usize>`.
        let home = home_in(count, word_at(sector, 2 + i as u8))?;
        if homes.contains(&home) {
            return None;
        }
        homes.push(home);
    }
    Some(homes)
}

/// The homes that the sector names, if it describes a transaction of the sequence number.
#[tactic(auto, unfolding(crate::specs::Journal::describes))]
pub fn described(sequence: u32, count: usize, sector: &[u8; SECTOR]) -> Option<Homes>
    ensures { MatchOption result (describes sequence count sector.now ≡ false) (λ homes. (describes sequence count sector.now ≡ true) × (homes.items ≡ homes_in sector.now)) }
{
    // As above: `usize` has no `From<u32>`.
    let size = rest_of(word_at(sector, 1)) as usize;
    if !is_word(word_at(sector, 0), 1, sequence)
        || kind_of(word_at(sector, 1)) != 2
        || !(1..=MOST).contains(&size)
    {
        return None;
    }
    read_homes(count, sector, size)
}
