//! Explores every disk image that a crash may leave of a recorded release, or makes the calls of a
//! script. The recording and the base image are never written.
#![tactic(auto)]

mod asked;
mod ending;
mod timed;
mod ways;

use asked::{Asked, How};
use console::{Failed, Program, Usage};
use journalled::Journalled;
use plain::Plain;
use std::process::ExitCode;
use ways::answer;

const HELP: &str = "explore [OPTIONS] FILESYSTEM RECORDING BASE

Explores every disk image that a crash may leave: builds each state of each crash
point of RECORDING (Linux dm-log-writes, version 1) over the image in BASE, recovers
it by a file system, j (journalled) or p (plain), and judges the tree. An image is
the first 64 whole 512-byte sectors of a file. No file is written.

Without an option it prints how much is explored, a line for each point with more
than one state or an unsafe one, the first 20 unsafe states, and the report.

  --plain        for programs: a line for each state, POINT RANK OUTCOME NODE, and
                 last report VERDICT JUDGED UNSAFE FORGONE PASSED POINT RANK; of a
                 recording that is declined only declined NUMBER PLACE
  --quiet        only the last line of --plain
  --script FILE  makes the calls in FILE, - for standard input, one a line: load,
                 advance, judge, forgo, look N, look N LENGTH or report; prints a
                 line for each: ok, ok POINT RANK, ok end, ok OUTCOME NODE, ok HEX,
                 report .. or declined NUMBER PLACE
  --progress     tells on standard error how far it is, once a second; not of a script
  --help         this text
  --version      the version

Outcomes: 0 the tree is admitted, 1 it is not, for its lowest node that is not, 2
recovery finds a fault. Verdicts: 0 empty, 1 unfinished, 2 safe, 3 unsafe, 4 open.
Status 0 if the verdict is safe, or if the script was read; else 1 with the reason on
standard error.";

const USAGE: Usage = Usage {
    name: "explore",
    version: Some("explore 0.1.0"),
    help: HELP,
    wanted: "a file system and two files are wanted, [OPTIONS] FILESYSTEM RECORDING BASE",
};

/// Does what is asked, with the file system that it names.
// Each file system is a type of its own, so each name has its own call, as in `recover`.
fn explore(program: Program, asked: Asked) -> Result<(), Failed> {
    match asked.system() {
        "j" => answer(&program, Journalled, &asked),
        "p" => answer(&program, Plain, &asked),
        name => Err(program.refused(format_args!(
            "no file system is called {name}; j is the journalled one, p the plain one"
        ))),
    }
}

// An `Err` from main would be printed, and its reason stands on standard error already.
fn main(rt: HostRuntime) -> ExitCode {
    USAGE.run(&rt, explore)
}
