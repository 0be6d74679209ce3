//! A watcher that tells on standard error how far an exploration is.
ghost use Rattle.std.specs.Prelude.{◌≡◌, Ok, OnOk};

use console::Failed;
use exhaust::Watch;
use judging::Judgement;
use std::time::{Duration, Instant};

/// How many states are judged between two looks at the clock.
const STATES: u64 = 1024;

/// Tells how far the exploration is, at most once a second, beside another watcher.
#[derive(Drop)]
pub struct Timed<'a, 'b, W> {
    rt: &'a HostRuntime,
    watch: &'b mut W,
    begun: Instant,
    told: Duration,
    states: u64,
}

impl<'a, 'b, W> Timed<'a, 'b, W> {
    /// A watcher beside another, from now on.
    pub fn new(rt: &'a HostRuntime, watch: &'b mut W) -> Result<Timed<'a, 'b, W>, Failed> {
        Ok(Timed {
            rt,
            watch,
            begun: Instant::now(rt)?,
            told: Duration::ZERO,
            states: 0,
        })
    }

    /// Tells how far it is, if a second has passed since it was told last.
    fn tell(&mut self, point: usize) -> Result<(), Failed>
        ensures { self.new.watch.now ≡ self.old.watch.now }
    {
        let passed = self.begun.elapsed(self.rt)?;
        if passed.saturating_sub(self.told).as_secs() == 0 {
            return Ok(());
        }
        self.told = passed;
        let states = self.states;
        let rate = u128::from(states).saturating_mul(1000) / passed.as_millis().max(1);
        eprintln!(self.rt; "point {point}, {states} states, {rate} states a second")?;
        Ok(())
    }
}

impl<W: Watch<Stop = Failed>> Watch for Timed<'_, '_, W> {
    type Stop = Failed;

    ghost hears = { λ w x found r v. OnOk r (W.Watch.hears w.watch.now x found (Ok tt) v.watch.now) };

    fn judged(&mut self, point: usize, rank: u64, found: Judgement) -> Result<(), Failed> {
        self.watch.judged(point, rank, found)?;
        self.states = self.states.saturating_add(1);
        if self.states % STATES == 0 {
            self.tell(point)?;
        }
        Ok(())
    }
}
