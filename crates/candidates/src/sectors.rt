//! The numbers of a sector's candidates at a point, before equal contents are left out.
ghost use Rattle.std.specs.Prelude.{◌≡◌, ℕ, List};
ghost use Rattle.image.specs.Sectors.{Image};
ghost use Rattle.crash.specs.Rules.{effect_at};
ghost use Rattle.crash.specs.Walk.{turn as turn_by};
ghost use Rattle.trace.specs.Meaning.{recording_of};
ghost use Rattle.candidates.specs.Turns.{turned};
ghost use Rattle.candidates.specs.Gathering.{Gathered};

use crate::eight::Few;
use crate::refusal::Refusal;
use crate::turns::Turn;
use crate::walk::walk;
use trace::Trace;

// A trace goes beside a sector or a point, here and above: one of the two changes from call to call, and a pair would
// be made anew for each.
/// What entry `number` does to the history of a sector.
fn turn(trace: &Trace, sector: usize, number: usize) -> Turn<usize>
    ensures { (base : Image) (held : List ℕ) → turned result held ≡ turn_by (effect_at (recording_of base trace.now) number) sector number held }
{
    let step = trace.step(number);
    let writes = step.covers(sector);
    Turn {
        settles: step.flush,
        puts: writes.then_some(number),
        fua: step.fua,
    }
}

/// The numbers of a sector's candidates at a point, or the first point up to there at which they
/// are more than 8.
pub fn gather(trace: &Trace, sector: usize, point: usize) -> Result<Few<usize>, Refusal>
    ensures { (base : Image) → Gathered (recording_of base trace.now) point sector result }
{
    walk(0, point, |number| turn(trace, sector, number))
}
