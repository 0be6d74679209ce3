//! Why a run declines a call.
ghost use Rattle.std.specs.Prelude.{◌≡◌};
ghost use Rattle.run.specs.Refusals.{code_of};
ghost use Rattle.run.specs.declared.refusal.Refusal.TheVariants.{Store, BaseFault, Recording};

use filesystem::Fault;
use thiserror::Error;

/// Why a run declines a call.
#[derive(Clone, Copy, PartialEq, Eq, Debug, Error)]
pub enum Refusal {
    /// A look's buffer or sector.
    #[error("{0}")]
    Store(image::Refusal),
    /// The image has fewer sectors than the file system needs.
    #[error("the image has fewer sectors than the file system needs")]
    TooFewSectors,
    /// The base recovers to a fault.
    #[error("the base image does not recover: {0}")]
    BaseFault(Fault),
    /// The recording is no recording, or goes past a limit; or no memory is left.
    #[error("{0}")]
    Recording(taking::Refusal),
    /// Nothing is loaded.
    #[error("nothing is loaded")]
    NothingLoaded,
    /// A recording is loaded already.
    #[error("a recording is loaded already")]
    AlreadyLoaded,
    /// No state stands.
    #[error("no state stands")]
    NoState,
    /// The standing state is not judged.
    #[error("the standing state is not judged")]
    NotJudged,
    /// The standing state is judged already.
    #[error("the standing state is judged already")]
    AlreadyJudged,
    /// The run has ended.
    #[error("the run has ended")]
    HasEnded,
}

impl Refusal {
    /// The number and the place of this refusal; want of memory has none.
    pub fn code(&self) -> Option<(u64, u64)>
        ensures { result ≡ code_of self.now }
    {
        match *self {
            Refusal::Store(refusal) => {
                let (number, place) = refusal.code();
                // `u64` has no `From<usize>`.
                Some((number as u64, place as u64))
            }
            Refusal::TooFewSectors => Some((3, 0)),
            Refusal::BaseFault(_) => Some((4, 0)),
            Refusal::Recording(refusal) => refusal.code(),
            Refusal::NothingLoaded => Some((21, 0)),
            Refusal::AlreadyLoaded => Some((22, 0)),
            Refusal::NoState => Some((23, 0)),
            Refusal::NotJudged => Some((24, 0)),
            Refusal::AlreadyJudged => Some((25, 0)),
            Refusal::HasEnded => Some((26, 0)),
        }
    }
}

// By hand, as the next two: a derived `From` has no contract, and clauses name the case.
impl From<image::Refusal> for Refusal {
    ghost from_gives = { λ f r. r ≡ Store f };

    fn from(refusal: image::Refusal) -> Refusal {
        Refusal::Store(refusal)
    }
}

impl From<Fault> for Refusal {
    ghost from_gives = { λ f r. r ≡ BaseFault f };

    fn from(fault: Fault) -> Refusal {
        Refusal::BaseFault(fault)
    }
}

impl From<taking::Refusal> for Refusal {
    ghost from_gives = { λ f r. r ≡ Recording f };

    fn from(refusal: taking::Refusal) -> Refusal {
        Refusal::Recording(refusal)
    }
}
