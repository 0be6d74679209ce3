//! The ways in which an exploration is printed.
use crate::asked::{Asked, How};
use crate::ending::conclude;
use crate::timed::Timed;
use console::{Failed, Program};
use exhaust::Watch;
use exploring::{InWords, Outcome, Plain, Quiet, explore, follow_script, write_outcome};
use filesystem::FileSystem;
use image::{Flat, ImageStore};
use script::{Refusal, Spoken, read_script};
use std::io::{self, BufWriter, Read, Write};

/// How many bytes of output are written at once.
const BUFFER: usize = 65536;

/// What is explored: a recording over its base, with a file system; and whether it is told how far
/// the exploration is.
#[derive(Drop)]
struct Release<'a, F> {
    recording: &'a [u8],
    base: &'a mut [u8],
    fs: F,
    progress: bool,
}

impl<F: FileSystem + Copy + Drop> Release<'_, F> {
    /// Explores every state, telling each to the watcher.
    fn explore<W: Watch<Stop = Failed>>(
        &mut self,
        program: &Program,
        watch: &mut W,
    ) -> Result<Outcome, Failed> {
        let rt = program.rt;
        let base = Flat::new(self.base);
        if !self.progress {
            return Ok(explore(rt.alloc(), base, self.fs, self.recording, watch));
        }
        let mut timed = Timed::new(rt, watch)?;
        Ok(explore(rt.alloc(), base, self.fs, self.recording, &mut timed))
    }

    /// Prints the exploration in words.
    fn print_words<W: Write>(&mut self, program: &Program, out: &mut W) -> Result<Outcome, Failed> {
        let count = Flat::new(self.base).count();
        let mut watch = InWords::new(program.rt.alloc(), out, self.recording, count);
        let outcome = self.explore(program, &mut watch)?;
        if let Ok(report) = &outcome {
            watch.finish(report)?;
        }
        Ok(outcome)
    }

    /// Prints a line for each state, and the report.
    fn print_plain<W: Write>(&mut self, program: &Program, out: &mut W) -> Result<Outcome, Failed> {
        let outcome = self.explore(program, &mut Plain { out })?;
        write_outcome(out, &outcome)?;
        Ok(outcome)
    }

    /// Prints the report.
    fn print_quiet<W: Write>(&mut self, program: &Program, out: &mut W) -> Result<Outcome, Failed> {
        let outcome = self.explore(program, &mut Quiet)?;
        write_outcome(out, &outcome)?;
        Ok(outcome)
    }

    /// Makes the calls of the script in a file, and prints their answers.
    fn print_answers<W: Write>(
        &mut self,
        program: &Program,
        file: &str,
        out: &mut W,
    ) -> Result<(), Failed> {
        let calls = read_calls(program, file)?;
        let base = Flat::new(self.base);
        follow_script(
            program.rt.alloc(),
            base,
            self.fs,
            self.recording,
            calls.as_slice(),
            out,
        )
    }
}

/// The bytes on standard input.
fn read_input(program: &Program) -> Result<Vec<u8>, Failed> {
    let rt = program.rt;
    let mut bytes = Vec::new(rt.alloc());
    rt.reader().read_to_end(&mut bytes).map_err(|e| program.refused(format_args!(
        "cannot read the script on standard input: {e}"
    )))?;
    Ok(bytes)
}

/// The calls of the script in a file, or on standard input.
fn read_calls(program: &Program, file: &str) -> Result<Vec<Spoken>, Failed> {
    let rt = program.rt;
    let bytes = match file {
        "-" => read_input(program)?,
        _ => program.read("script", file)?.bytes,
    };
    read_script(rt.alloc(), bytes.as_slice()).map_err(|why| match why {
        Refusal::NoCall { line } => {
            program.refused(format_args!(
                "line {line} of the script is no call; load, advance, judge, forgo, look N, look N LENGTH or report is one"
            ))
        }
        Refusal::Memory => Failed::Memory,
    })
}

/// Explores, or follows a script, and prints as it is asked.
pub fn answer<F: FileSystem + Copy + Drop>(
    program: &Program,
    fs: F,
    asked: &Asked,
) -> Result<(), Failed> {
    let rt = program.rt;
    let recording = program.read("recording", asked.recording())?;
    let mut base = program.read("base image", asked.base())?;
    let mut release = Release {
        recording: recording.bytes.as_slice(),
        base: base.bytes.as_mut_slice(),
        fs,
        progress: asked.progress,
    };
    let mut out = BufWriter::with_capacity(rt.alloc(), BUFFER, io::writer(rt))?;
    let outcome = match &asked.how {
        How::Words => release.print_words(program, &mut out)?,
        How::Plain => release.print_plain(program, &mut out)?,
        How::Quiet => release.print_quiet(program, &mut out)?,
        How::Script(file) => {
            release.print_answers(program, file.as_str(), &mut out)?;
            out.flush()?;
            return Ok(());
        }
    };
    out.flush()?;
    conclude(program, outcome)
}
