//! A watcher that tells an exploration in words.
ghost use Rattle.std.specs.Prelude.{⊤};

use console::Failed;
use exhaust::Watch;
use image::SECTOR;
use judging::Judgement;
use progress::{Report, Verdict};
use recording::{Entry, Reader};
use std::alloc::Global;
use std::io::Write;
use words::point_words;

/// How many unsafe states are named.
const NAMED: usize = 20;

/// A state that was judged unsafe.
#[derive(Clone, Copy)]
struct UnsafeState {
    point: usize,
    rank: u64,
    found: Judgement,
}

/// How much is explored: entries, sectors of data, and sectors of the image.
#[derive(Clone, Copy)]
struct Explored {
    entries: u64,
    sectors: u64,
    count: usize,
}

/// What was found so far of a point's states; the entry before the point is there unless it is the first.
#[derive(Clone, Copy, Default)]
struct Tally<'a> {
    point: usize,
    before: Option<Entry<'a>>,
    states: u64,
    unsafe_states: u64,
}

/// How many sectors of data the entries have that the reader gives.
fn data_sectors(mut reader: Reader) -> u64 {
    let mut sectors = 0u64;
    while let Ok(Some(entry)) = reader.next() {
        sectors = sectors.saturating_add((entry.data().len() / SECTOR) as u64);
    }
    sectors
}

/// Writes a header, a line for each point that has more than one state or an unsafe one, and in the
/// end the first unsafe states and the report.
#[derive(Drop)]
pub struct InWords<'a, 'b, W> {
    heap: Global,
    out: &'b mut W,
    reader: Option<Reader<'a>>,
    extent: Explored,
    tally: Tally<'a>,
    worst: Vec<UnsafeState>,
}

impl<'a, 'b, W: Write> InWords<'a, 'b, W> {
    /// A watcher of the exploration of a recording over so many sectors.
    pub fn new(
        heap: Global,
        out: &'b mut W,
        recording: &'a [u8],
        count: usize,
    ) -> InWords<'a, 'b, W> {
        // What no reader opens is declined, and no state of it is told.
        let reader = Reader::open(recording).ok();
        let extent = Explored {
            entries: reader.map_or(0, |opened| opened.total()),
            sectors: reader.map_or(0, data_sectors),
            count,
        };
        InWords {
            heap,
            out,
            reader,
            extent,
            tally: Tally::default(),
            worst: Vec::new(heap),
        }
    }

    /// Writes how much is explored.
    fn write_header(&mut self) -> Result<(), Failed> {
        let Explored {
            entries,
            sectors,
            count,
        } = self.extent;
        writeln!(
            self.out,
            "{entries} entries, {sectors} sectors of data, {count} sectors in the image"
        )?;
        Ok(())
    }

    /// Writes the line of the point that was explored last, if it is worth one.
    fn write_point(&mut self) -> Result<(), Failed> {
        let Tally {
            point,
            before,
            states,
            unsafe_states,
        } = self.tally;
        if states > 1 || unsafe_states > 0 {
            let words = point_words(self.heap, point, before)?;
            let noun = if states == 1 { "state" } else { "states" };
            writeln!(
                self.out,
                "point {point}: {states} {noun}, {unsafe_states} unsafe, {words}"
            )?;
        }
        Ok(())
    }

    /// Goes on to the next point.
    fn enter(&mut self, point: usize) -> Result<(), Failed> {
        self.write_point()?;
        let before = match &mut self.reader {
            Some(reader) => reader.next().ok().flatten(),
            None => None,
        };
        self.tally = Tally {
            point,
            before,
            states: 0,
            unsafe_states: 0,
        };
        Ok(())
    }

    /// Writes what is left to tell: the last point, the first unsafe states, and the report.
    pub fn finish(&mut self, report: &Report) -> Result<(), Failed> {
        self.write_point()?;
        for state in self.worst.as_slice() {
            let UnsafeState { point, rank, found } = *state;
            let (outcome, node) = found.code();
            writeln!(
                self.out,
                "unsafe: point {point}, rank {rank}, outcome {outcome}, node {node}: {found}"
            )?;
        }
        let more = report.unsafe_judged.saturating_sub(self.worst.len() as u64);
        if more > 0 {
            writeln!(self.out, "and {more} more")?;
        }
        write_words(self.out, report)
    }
}

/// Writes a report in words.
fn write_words<W: Write>(out: &mut W, report: &Report) -> Result<(), Failed> {
    let Report {
        verdict,
        judged,
        unsafe_judged,
        forgone,
        passed,
        point,
        rank,
    } = *report;
    let code = verdict.code();
    writeln!(out, "verdict {code}: {verdict}")?;
    writeln!(
        out,
        "{passed} states passed, {judged} judged, {unsafe_judged} unsafe, {forgone} forgone"
    )?;
    match verdict {
        Verdict::Unsafe => writeln!(out, "first unsafe state: point {point}, rank {rank}")?,
        _ => writeln!(out, "no unsafe state: point {point}, rank {rank}")?,
    }
    Ok(())
}

impl<W: Write> Watch for InWords<'_, '_, W> {
    type Stop = Failed;

    // What is printed in words has no contract.
    ghost hears = { λ _ _ _ _ _. ⊤ };

    fn judged(&mut self, point: usize, rank: u64, found: Judgement) -> Result<(), Failed> {
        if point == 0 && rank == 0 {
            self.write_header()?;
        }
        if point != self.tally.point {
            self.enter(point)?;
        }
        self.tally.states = self.tally.states.saturating_add(1);
        if found != Judgement::Admitted {
            self.tally.unsafe_states = self.tally.unsafe_states.saturating_add(1);
            if self.worst.len() < NAMED {
                self.worst.push(UnsafeState { point, rank, found })?;
            }
        }
        Ok(())
    }
}
