//! A caller that explores a release, and tells each crash state.
ghost use Rattle.std.specs.Prelude.{◌≡◌, IfOk, option_map};
ghost use Rattle.run.specs.Events.{call_seen};
ghost use Rattle.incident.specs.Telling.{Chosen, follows};

use crate::story::{HEADER, OLDER, base_image};
use console::{Failed, Program};
use image::{Flat, SECTOR};
use judging::Judgement;
use plain::Plain;
use progress::Verdict;
use run::{Answer, Call, Refusal};
use work::{Caller, whole_run};

/// A caller that gives, shows and judges each state of a recording, and tells of it.
#[derive(Drop)]
struct Teller<'a> {
    rt: &'a HostRuntime,
    recording: &'a [u8],
    state: (usize, u64),
    counted: u8,
    older: Option<(usize, u64)>,
    failed: Option<Failed>,
}

impl<'a> Teller<'a> {
    /// Tells what is found of the standing state; the first unsafe one with the older header is kept.
    fn tell(&mut self, found: Judgement) -> Result<(), Failed> {
        let (point, rank) = self.state;
        let counted = self.counted;
        let word = match found {
            Judgement::Admitted => "safe",
            _ => "UNSAFE",
        };
        if found != Judgement::Admitted && counted == OLDER {
            self.older = self.older.or(Some(self.state));
        }
        println!(self.rt;
            "  point {point}, rank {rank}: the header counts {counted}; {word}, {found}"
        )?;
        Ok(())
    }

    /// Tells of the state with the older header.
    fn tell_older(&self) -> Result<(), Failed> {
        match self.older {
            Some((point, rank)) => println!(self.rt;
                "The older header, which counts {OLDER}, is left at point {point}, rank {rank}; that state is unsafe."
            )?,
            None => println!(self.rt; "No state with the older header is unsafe.")?,
        }
        Ok(())
    }

    /// The call that follows an answer; none where the story is over.
    fn call_after(&mut self, answer: Answer) -> Result<Option<Call<'a>>, Failed>
        ensures { IfOk result (λ next. option_map call_seen next ≡ follows answer) }
    {
        let next = match answer {
            Answer::Loaded => Call::Advance,
            Answer::Next(Some(state)) => {
                self.state = state;
                Call::Look {
                    sector: HEADER,
                    size: SECTOR,
                }
            }
            Answer::Shown(content) => {
                self.counted = content[0];
                Call::Judge
            }
            Answer::Found(found) => {
                self.tell(found)?;
                Call::Advance
            }
            Answer::Next(None) | Answer::Forgone | Answer::Reported(_) => return Ok(None),
        };
        Ok(Some(next))
    }
}

impl<'a> Caller<'a> for Teller<'a> {
    ghost says = { λ s last call t. Chosen s.recording.now last call };

    fn next(&mut self, last: Option<Result<Answer, Refusal>>) -> Option<Call<'a>> {
        let answer = match last {
            None => return Some(Call::Load(self.recording)),
            Some(Ok(answer)) => answer,
            // The story is over; the report then says that it is unfinished.
            Some(Err(_)) => return None,
        };
        match self.call_after(answer) {
            Ok(next) => next,
            Err(failed) => {
                self.failed = Some(failed);
                None
            }
        }
    }
}

/// Explores a recording over the story's image, and tells each crash state; the answer is the verdict.
pub fn tell(program: &Program, recording: &[u8]) -> Result<Verdict, Failed> {
    let rt = program.rt;
    let mut base = base_image(rt.alloc())?;
    let mut teller = Teller {
        rt,
        recording,
        state: (0, 0),
        counted: 0,
        older: None,
        failed: None,
    };
    let (_base, report) = whole_run(
        rt.alloc(),
        Flat::new(base.as_mut_slice()),
        Plain,
        &mut teller,
        u64::MAX,
    );
    teller.tell_older()?;
    match teller.failed {
        Some(failed) => Err(failed),
        None => Ok(report.verdict),
    }
}
