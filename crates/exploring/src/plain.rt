//! Watchers that print nothing, or a line for each state.
ghost use Rattle.std.specs.Prelude.{◌≡◌, Ok, OnOk};
ghost use Rattle.std.specs.Io.KnownBytes.{Appends};
ghost use Rattle.judging.specs.Codes.{code_of};
ghost use Rattle.exploring.specs.Lines.{state_line};

use crate::lines::write_state;
use console::Failed;
use exhaust::Watch;
use judging::Judgement;
use std::io::Write;

/// Prints nothing.
#[derive(Clone, Copy, Debug, Default)]
pub struct Quiet;

impl Watch for Quiet {
    type Stop = Failed;

    ghost hears = { λ w _ _ r v. (v ≡ w) × (r ≡ Ok tt) };

    fn judged(&mut self, _point: usize, _rank: u64, _found: Judgement) -> Result<(), Failed> {
        Ok(())
    }
}

/// Writes a line for each state.
#[derive(Drop)]
pub struct Plain<'a, W> {
    pub out: &'a mut W,
}

impl<W: Write> Watch for Plain<'_, W> {
    type Stop = Failed;

    ghost hears = { λ w x found r v. OnOk r (Appends (W.Write.contents w.out.now) (W.Write.contents v.out.now) (state_line x.0 x.1 (code_of found))) };

    fn judged(&mut self, point: usize, rank: u64, found: Judgement) -> Result<(), Failed> {
        write_state(self.out, point, rank, found)?;
        Ok(())
    }
}
