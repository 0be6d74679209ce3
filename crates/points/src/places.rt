//! The places of a state's candidates, moved on to the next state.
ghost use Rattle.points.specs.Moving.{Moved};

use thiserror::Error;

/// Places and counts that are not equally many.
#[derive(Clone, Copy, PartialEq, Eq, Debug, Error)]
#[error("the places and the counts are not equally many")]
pub struct LengthsDiffer;

/// Moves the places of a state's candidates, one for each sector, on to those of the next state.
/// The answer is the first sector whose place changed: its place is one higher, and those of all
/// sectors after it are 0. After the last state the answer is none, and all places are 0 again.
// Two rows, and no pairs: the places alone change, and who calls this would have to make pairs for it.
pub fn advance(places: &mut [usize], counts: &[usize]) -> Result<Option<usize>, LengthsDiffer>
    ensures { Moved counts.now places.old places.new result }
{
    if places.len() != counts.len() {
        return Err(LengthsDiffer);
    }
    // By index: a zip of both rows was tried, its loop runs over an iterator of borrows, and the proof did not close.
    for i in (0..places.len()).rev() {
        let last = counts[i].saturating_sub(1);
        if places[i] < last {
            places[i] += 1;
            return Ok(Some(i));
        }
        places[i] = 0;
    }
    Ok(None)
}
