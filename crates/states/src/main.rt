//! Prints, for each crash point of a recording, the entry before it, how many states a crash may
//! leave there, and the candidates of each sector that has more than one.
#![tactic(auto)]

mod report;
mod taken;

use console::{Failed, Program, Usage};
use image::Flat;
use std::process::ExitCode;
use taken::Taken;

const HELP: &str = "states RECORDING BASE

Prints, for each crash point of RECORDING (Linux dm-log-writes, version 1) over the
image in BASE, the entry before it and how many states a crash may leave there; for
each sector with more than one candidate the numbers of the candidates' entries (0
is the base); and at the end the number of points, of states in all, and of states
at the widest point. An image is the first 64 whole 512-byte sectors of a file. No
file is written.

  --help     this text
  --version  the version

Status 0 if the recording is taken, else 1 with the reason on standard error.";

const USAGE: Usage = Usage {
    name: "states",
    version: Some("states 0.1.0"),
    help: HELP,
    wanted: "two files are wanted, RECORDING BASE",
};

/// Reads the two files and prints the points.
fn states(program: Program, words: [String; 2]) -> Result<(), Failed> {
    let [recording, base] = &words;
    let recording = program.read("recording", recording.as_str())?;
    let mut base = program.read("base image", base.as_str())?;
    let bytes = recording.bytes.as_slice();
    let taken = Taken::read(&program, bytes, Flat::new(base.bytes.as_mut_slice()))?;
    taken.report(&program, bytes)
}

// An `Err` from main would be printed, and its reason stands on standard error already.
fn main(rt: HostRuntime) -> ExitCode {
    USAGE.run(&rt, states)
}
