//! The story that the explorer exists for: a header is written twice between the same two flushes, and a crash
//! may leave the older one. The release is recorded in memory and explored; then again with a flush between.
#![tactic(auto)]

mod log;
mod story;
mod teller;

use console::{Failed, Program, Usage};
use log::Log;
use progress::Verdict;
use std::process::ExitCode;
use story::{Release, record};
use teller::tell;

const HELP: &str = "incident

Tells the story that the explorer exists for, on a release made in memory: a header
with its count of objects, objects that come late, and the header again, both headers
between the same two flushes. Prints each step, each crash state and its judgement,
and the state with the older header, which is unsafe; then the same release with one
flush more, which is safe.

Status 0, or 1 with the reason on standard error.";

const USAGE: Usage = Usage {
    name: "incident",
    version: None,
    help: HELP,
    wanted: "no argument is wanted",
};

/// Tells a release, which should come to this verdict.
fn tell_one(program: &Program, release: Release, wanted: Verdict) -> Result<(), Failed> {
    let rt = program.rt;
    let mut log = Log::new(rt.alloc());
    record(program, &mut log, release)?;
    let recording = log.finish()?;
    let verdict = tell(program, recording.as_slice())?;
    println!(rt; "Verdict: {verdict}.")?;
    println!(rt; "")?;
    if verdict == wanted {
        Ok(())
    } else {
        Err(program.refused(format_args!("the release should be {wanted}")))
    }
}

/// Tells both releases.
fn incident(program: Program, _words: [String; 0]) -> Result<(), Failed> {
    tell_one(&program, Release::NoFlush, Verdict::Unsafe)?;
    tell_one(&program, Release::Flush, Verdict::Safe)
}

// An `Err` from main would be printed, and its reason stands on standard error already.
fn main(rt: HostRuntime) -> ExitCode {
    USAGE.run(&rt, incident)
}
