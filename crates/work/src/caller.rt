//! Who chooses the calls of a run.
ghost use Rattle.std.specs.Prelude.{Option};
ghost use Rattle.run.specs.declared.call.Call.{Call as Chosen};
ghost use Rattle.work.specs.Talks.{Reply};

use run::{Answer, Call, Refusal};

/// Chooses each call of a run upon the answer to the one before.
pub trait Caller<'a> {
    // From a caller, upon an answer (none before the first call): what it may choose, and what it is then.
    ghost says: { Self → Option Reply → Option Chosen → Self → Type 0 };

    /// The next call, if there is one, upon the answer to the last one, if there was one.
    fn next(&mut self, last: Option<Result<Answer, Refusal>>) -> Option<Call<'a>>
        ensures { says self.old last result self.new };
}
