//! Who is told of each state that is judged.
ghost use Rattle.std.specs.Prelude.{◌≡◌, Result};
ghost use Rattle.law.specs.Subject.{State};
ghost use Rattle.judging.specs.declared.judgement.Judgement.{Judgement as Found};
ghost use Rattle.exhaust.specs.declared.watch.Stopped.TheVariants.{Declined};

use judging::Judgement;
use run::Refusal;

/// Is told of each state that is judged, and may stop the search.
pub trait Watch {
    /// Why the search is stopped.
    type Stop;

    // From a watcher, told of a state and of what was found of it: what it may answer, and what it is then.
    ghost hears: { Self → State → Found → Result (Unit {0}) Self.Stop → Self → Type 0 };

    /// The state of a point and a rank was judged.
    fn judged(&mut self, point: usize, rank: u64, found: Judgement) -> Result<(), Self::Stop>
        ensures { hears self.old (point, rank) found result self.new };
}

/// Why a search came to no end.
#[derive(Debug, Drop)]
pub enum Stopped<E> {
    /// The recording is not loaded.
    Declined(Refusal),
    /// The watcher stopped it.
    Watcher(E),
}

// By hand: a derived `From` has no contract, and clauses name the case.
impl<E> From<Refusal> for Stopped<E> {
    ghost from_gives = { λ f r. r ≡ Declined f };

    fn from(refusal: Refusal) -> Stopped<E> {
        Stopped::Declined(refusal)
    }
}
