//! The report of a run.
ghost use Rattle.std.specs.Prelude.{◌≡◌, Some};
ghost use Rattle.image.specs.Sectors.{Image};
ghost use Rattle.law.specs.Subject.{Recording};
ghost use Rattle.law.specs.Rules.{verdict_of};
ghost use Rattle.law.specs.Steps.{report_on};
ghost use Rattle.progress.specs.Views.{view_of, condition_of};
ghost use Rattle.progress.specs.Reports.{report_seen, code_of, word_of};

use crate::condition::{Condition, Progress};
use std::fmt;

/// What a report says of the search.
#[derive(Clone, Copy, PartialEq, Eq, Debug)]
pub enum Verdict {
    /// Nothing is loaded.
    Empty = 0,
    /// The search has not ended.
    Unfinished = 1,
    /// Every state of every point was judged, and none is unsafe.
    Safe = 2,
    /// A state was judged unsafe.
    Unsafe = 3,
    /// The search has ended, and states were forgone.
    Open = 4,
}

impl Verdict {
    /// The number of this verdict.
    pub fn code(&self) -> u32
        ensures { result ≡ code_of self.now }
    {
        // The rules number the verdicts; nothing is generic over what has a number, so no trait says `code`.
        *self as u32
    }
}

// By hand: a derived text would come with `Error`, and a verdict is no error.
impl fmt::Display for Verdict {
    ghost output = { λ v. Some (word_of v) };

    fn fmt<W: fmt::Write>(&self, f: &mut fmt::Formatter<W>) -> fmt::Result {
        f.write_str(match self {
            Verdict::Empty => "empty",
            Verdict::Unfinished => "unfinished",
            Verdict::Safe => "safe",
            Verdict::Unsafe => "unsafe",
            Verdict::Open => "open",
        })
    }
}

/// The report of a run: the verdict, how many states were judged, how many of them were unsafe, how
/// many were forgone and how many are passed; and the first state judged unsafe, 0 0 if there is none.
#[derive(Clone, Copy, PartialEq, Eq, Debug)]
pub struct Report {
    pub verdict: Verdict,
    pub judged: u64,
    pub unsafe_judged: u64,
    pub forgone: u64,
    pub passed: u64,
    // Numbers, and no Option: the rules' report has 0 and 0 where no state was judged unsafe.
    pub point: usize,
    pub rank: u64,
}

impl Progress {
    /// The verdict on a run that is so far.
    fn verdict(&self) -> Verdict
        ensures { code_of result ≡ verdict_of (condition_of self.now.condition) self.now.unsafe_judged self.now.forgone }
    {
        match self.condition {
            Condition::Empty => Verdict::Empty,
            _ if self.unsafe_judged > 0 => Verdict::Unsafe,
            Condition::Ended if self.forgone > 0 => Verdict::Open,
            Condition::Ended => Verdict::Safe,
            _ => Verdict::Unfinished,
        }
    }

    /// The report on a run that is so far.
    pub fn report(&self) -> Report
        ensures { (base : Image) (R : Recording) → report_seen result ≡ report_on (view_of base R self.now) }
    {
        // The rules' report has 0 and 0 where there is none.
        let (point, rank) = self.first.unwrap_or((0, 0));
        Report {
            verdict: self.verdict(),
            judged: self.judged,
            unsafe_judged: self.unsafe_judged,
            forgone: self.forgone,
            passed: self.passed,
            point,
            rank,
        }
    }
}
