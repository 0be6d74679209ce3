//! Replays a recording onto an image: prints each entry, applies them all, and writes the image
//! that they leave to another file. The base image is never written.
#![tactic(auto)]

ghost use Rattle.std.specs.Prelude.{◌≡◌, length, OnOk};
ghost use Rattle.image.specs.Sectors.{cut};
ghost use Rattle.recording.specs.Recorded.{recorded, items_of};
ghost use Rattle.patch.specs.Replayed.{applied_all};

use console::{Failed, Program, Usage};
use image::{Flat, ImageStore, Overlay};
use patch::{changed_sectors, copy_image, replay_recording};
use recording::{Entry, Reader};
use std::fmt;
use std::process::ExitCode;
use words::entry_words;

const HELP: &str = "replay RECORDING BASE OUT

Prints every entry of RECORDING (Linux dm-log-writes, version 1), applies them all
to the image in BASE, writes the image that they leave to OUT, and prints how many
sectors changed. An image is the first 64 whole 512-byte sectors of a file; any
bytes behind them are copied as they are. BASE and RECORDING are never written.

  --help     this text
  --version  the version

Status 0 if all entries were applied, else 1 with the reason on standard error
and no output file written.";

const USAGE: Usage = Usage {
    name: "replay",
    version: Some("replay 0.1.0"),
    help: HELP,
    wanted: "three files are wanted, RECORDING BASE OUT",
};

/// How many entries of each kind there were.
#[derive(Clone, Copy, Default)]
struct Tally {
    writes: u64,
    discards: u64,
    flushes: u64,
    marks: u64,
}

impl Tally {
    /// Counts one entry more.
    fn count(&mut self, entry: &Entry) {
        let kind = match entry {
            Entry::Write { .. } => &mut self.writes,
            Entry::Discard { .. } => &mut self.discards,
            Entry::Flush { .. } => &mut self.flushes,
            Entry::Mark { .. } => &mut self.marks,
        };
        *kind = kind.saturating_add(1);
    }
}

// By hand: a derived text would make an error of a tally.
impl fmt::Display for Tally {
    fn fmt<W: fmt::Write>(&self, f: &mut fmt::Formatter<W>) -> fmt::Result {
        let Tally {
            writes,
            discards,
            flushes,
            marks,
        } = self;
        write!(
            f,
            "{writes} writes, {discards} discards, {flushes} flushes without data, {marks} marks"
        )
    }
}

/// Prints every entry, and counts them by kind.
fn show_all(program: &Program, bytes: &[u8]) -> Result<Tally, Failed> {
    let rt = program.rt;
    let mut all = Tally::default();
    // By the reader: the iterator is `patch`'s own, and would be a public type for this one loop.
    let mut reader = Reader::open(bytes).map_err(|why| program.declined(why.code(), why))?;
    while let Some(entry) = reader
        .next()
        .map_err(|why| program.declined(why.code(), why))?
    {
        let number = reader.taken();
        let text = entry_words(rt.alloc(), &entry)?;
        println!(rt; "{number}: {text}")?;
        all.count(&entry);
    }
    Ok(all)
}

/// Replays a recording over a base, and makes `out` the image that the entries leave.
fn replay(program: &Program, bytes: &[u8], base: &mut [u8], out: &mut [u8]) -> Result<(), Failed>
    requires { length base.old ≡ length out.old }
    ensures { OnOk result (cut out.new ≡ applied_all (items_of (recorded bytes.now)) (cut base.old)) }
{
    let rt = program.rt;
    let mut over = Overlay::over(Flat::new(base));
    replay_recording(&mut over, bytes).map_err(|why| program.declined(why.code(), why))?;
    let all = show_all(program, bytes)?;
    println!(rt; "{all}")?;
    let changed = changed_sectors(&over.below, &over);
    let count = over.count();
    let held = over.held();
    println!(rt; "{changed} of {count} sectors changed, {held} written")?;
    copy_image(&over, &mut Flat::new(out)).unwrap();
    Ok(())
}

/// Reads the two files, replays, and writes the third.
fn replay_files(program: Program, words: [String; 3]) -> Result<(), Failed> {
    let [recording, base, out] = &words;
    let recording = program.read("recording", recording.as_str())?;
    let mut base = program.read("base image", base.as_str())?;
    let mut image = base.bytes.clone()?;
    replay(
        &program,
        recording.bytes.as_slice(),
        base.bytes.as_mut_slice(),
        image.as_mut_slice(),
    )?;
    program.write_beside(&[recording, base], out.as_str(), image.as_slice())
}

// An `Err` from main would be printed, and its reason stands on standard error already.
fn main(rt: HostRuntime) -> ExitCode {
    USAGE.run(&rt, replay_files)
}
