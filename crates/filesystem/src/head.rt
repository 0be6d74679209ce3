//! The first two words of sector 0.
ghost use Rattle.std.specs.Prelude.{◌≡◌};
ghost use Rattle.filesystem.specs.Headed.{HeadAccepted, FormatFirst, CountNext};
ghost use Rattle.filesystem.specs.Heads.{head_of};

use crate::fault::Fault;
use crate::words::{is_word, word_at};
use image::{ImageStore, fetch};

/// Checks the number of sectors and the first two words.
pub fn check_head<S: ImageStore>(image: &S, least: usize, format: u32) -> Result<(), Fault>
    ensures { result ≡ head_of least format (S.sectors image.now) }
{
    let count = image.count();
    let sector = fetch(image, 0);
    if count < least || word_at(&sector, 0) != format {
        return Err(Fault::Format);
    }
    // At most 64 sectors: the cast is proved to lose no bit; a `try_from` would need an answer for what cannot be.
    if !is_word(word_at(&sector, 1), 2, count as u32) {
        return Err(Fault::Count);
    }
    Ok(())
}

/// Which heads are accepted, and which fault comes first.
pub fn head_laws()
    ensures accepted { HeadAccepted }
    ensures format { FormatFirst }
    ensures count { CountNext }
{}
