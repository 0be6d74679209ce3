//! Explores releases of which is known what is found, and compares; the answers were made by another
//! implementation of the same rules.
#![tactic(auto)]

mod cases;

use cases::Case;
use console::{Failed, Program, Usage};
use exploring::{Plain, Quiet, explore, follow_script, write_outcome};
use filesystem::FileSystem;
use image::Flat;
use journalled::Journalled;
use script::{Refusal, read_script};
use std::process::ExitCode;

const HELP: &str = "explore_cases LIST

Explores recorded releases, as explore does, and compares what it prints with what is
known. LIST has a case a line: NAME FILESYSTEM KIND, and then any words. FILESYSTEM is
j or p. NAME.log is the recording, NAME.img the base, and NAME.quiet what explore
--quiet prints; if KIND is plain or script, NAME.plain is what explore --plain prints;
if it is script, NAME.answers is what explore --script prints for the calls in
NAME.calls. The files are looked for in the working folder.

Prints a line for each case. Status 0 if none differs, else 1.";

const USAGE: Usage = Usage {
    name: "explore_cases",
    version: None,
    help: HELP,
    wanted: "a list of cases is wanted",
};

/// A release: its recording and its base.
#[derive(Drop)]
struct Release {
    recording: Vec<u8>,
    base: Vec<u8>,
}

/// Whether the report alone is as it should be.
fn quiet_agrees<F: FileSystem + Copy + Drop>(
    program: &Program,
    fs: F,
    case: Case,
    release: &mut Release,
) -> Result<bool, Failed> {
    let heap = program.rt.alloc();
    let mut out = Vec::new(heap);
    let base = Flat::new(release.base.as_mut_slice());
    let outcome = explore(heap, base, fs, release.recording.as_slice(), &mut Quiet);
    write_outcome(&mut out, &outcome)?;
    Ok(out.as_slice() == case.read(program, "quiet")?.as_slice())
}

/// Whether the line of each state and the report are as they should be.
fn plain_agrees<F: FileSystem + Copy + Drop>(
    program: &Program,
    fs: F,
    case: Case,
    release: &mut Release,
) -> Result<bool, Failed> {
    let heap = program.rt.alloc();
    let mut out = Vec::new(heap);
    let base = Flat::new(release.base.as_mut_slice());
    let mut watch = Plain { out: &mut out };
    let outcome = explore(heap, base, fs, release.recording.as_slice(), &mut watch);
    write_outcome(&mut out, &outcome)?;
    Ok(out.as_slice() == case.read(program, "plain")?.as_slice())
}

/// Whether the answers to the case's calls are as they should be.
fn script_agrees<F: FileSystem + Copy + Drop>(
    program: &Program,
    fs: F,
    case: Case,
    release: &mut Release,
) -> Result<bool, Failed> {
    let heap = program.rt.alloc();
    let calls = case.read(program, "calls")?;
    let calls = read_script(heap, calls.as_slice()).map_err(|why| match why {
        Refusal::NoCall { line } => program.refused(format_args!("line {line} is no call")),
        Refusal::Memory => Failed::Memory,
    })?;
    let mut out = Vec::new(heap);
    let base = Flat::new(release.base.as_mut_slice());
    let recording = release.recording.as_slice();
    follow_script(heap, base, fs, recording, calls.as_slice(), &mut out)?;
    Ok(out.as_slice() == case.read(program, "answers")?.as_slice())
}

/// Whether the case comes out as it should, and the base stays as it was.
fn agrees<F: FileSystem + Copy + Drop>(
    program: &Program,
    fs: F,
    case: Case,
) -> Result<bool, Failed> {
    let mut release = Release {
        recording: case.read(program, "log")?,
        base: case.read(program, "img")?,
    };
    let before = release.base.clone()?;
    let mut right = quiet_agrees(program, fs, case, &mut release)?;
    if case.has_plain() {
        right = plain_agrees(program, fs, case, &mut release)? && right;
    }
    if case.has_script() {
        right = script_agrees(program, fs, case, &mut release)? && right;
    }
    Ok(right && release.base.as_slice() == before.as_slice())
}

/// The same, by the file system that the case names.
// Each file system is a type of its own, so each name has its own call, as in `explore`.
fn agrees_named(program: &Program, case: Case) -> Result<bool, Failed> {
    match case.system {
        "j" => agrees(program, Journalled, case),
        "p" => agrees(program, plain::Plain, case),
        other => Err(program.refused(format_args!("no file system is called {other}"))),
    }
}

/// Tries the case of a line, and says how it came out.
fn try_line(program: &Program, line: &str) -> Result<bool, Failed> {
    let case = Case::read_line(line).ok_or_else(|| program.refused(format_args!(
        "this line is no case: {line}"
    )))?;
    let right = agrees_named(program, case)?;
    let Case { name, system, .. } = case;
    let word = if right { "ok" } else { "differs" };
    println!(program.rt; "{name} {system} {word}")?;
    Ok(right)
}

/// Tries every case of the list.
fn try_all(program: &Program, list: &str) -> Result<(), Failed> {
    let mut cases = 0u64;
    let mut differ = 0u64;
    for line in list.lines() {
        let right = try_line(program, line)?;
        cases = cases.saturating_add(1);
        differ = differ.saturating_add(u64::from(!right));
    }
    println!(program.rt; "{cases} cases, {differ} differ")?;
    if differ == 0 {
        Ok(())
    } else {
        Err(Failed::Said)
    }
}

/// Reads the list, and tries its cases.
fn try_list(program: Program, words: [String; 1]) -> Result<(), Failed> {
    let [path] = &words;
    let list = program.read("list", path.as_str())?;
    let list = String::from_utf8(list.bytes).map_err(|_| program.refused("the list is no text"))?;
    try_all(&program, list.as_str())
}

// An `Err` from main would be printed, and its reason stands on standard error already.
fn main(rt: HostRuntime) -> ExitCode {
    USAGE.run(&rt, try_list)
}
