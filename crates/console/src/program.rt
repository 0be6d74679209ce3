//! A program that runs, and what it says when it fails.
ghost use Rattle.std.specs.Prelude.{◌≡◌, ◌≢◌};
ghost use Rattle.std.specs.Process.{exit_status};
ghost use Rattle.console.specs.declared.failed.Failed.TheVariants.{Memory};
ghost use Rattle.console.specs.Exits.{status_of};

use crate::failed::Failed;
use std::fmt::Display;
use std::process::ExitCode;

/// A program that runs: the runtime, and the name that its messages begin with.
#[derive(Clone, Copy)]
pub struct Program<'a> {
    pub rt: &'a HostRuntime,
    pub(crate) name: &'a str,
}

impl Program<'_> {
    /// Says a reason on standard error, and is the failure that was said.
    pub fn refused(&self, reason: impl Display + Drop) -> Failed
        ensures { result ≢ Memory }
    {
        let name = self.name;
        match eprintln!(self.rt; "{name}: {reason}") {
            Ok(()) => Failed::Said,
            Err(_) => Failed::Output,
        }
    }

    /// Says that the recording is declined, by which number and place and why.
    pub fn declined(&self, code: (u64, u64), reason: impl Display + Drop) -> Failed
        ensures { result ≢ Memory }
    {
        let (number, place) = code;
        self.refused(format_args!("the recording is declined by {number}, place {place}: {reason}"))
    }

    /// The status that the program ends with; what is not yet said of a failure is said.
    pub(crate) fn status(&self, outcome: Result<(), Failed>) -> ExitCode
        ensures { exit_status result ≡ status_of outcome }
    {
        match outcome {
            Ok(()) => return ExitCode::SUCCESS,
            Err(Failed::Said) => {}
            // Where a reason cannot be said, nothing is left to say that on.
            Err(Failed::Memory) => {
                let _ = self.refused("no memory is left");
            }
            Err(Failed::Output) => {
                let _ = self.refused("the output could not be written");
            }
        }
        ExitCode::FAILURE
    }
}
