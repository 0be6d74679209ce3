//! With which status an exploration ends.
use console::{Failed, Program};
use exhaust::Stopped;
use exploring::Outcome;
use progress::{Report, Verdict};

/// Says why a report is not that of a safe release.
fn not_safe(program: &Program, report: &Report) -> Failed {
    let Report {
        verdict,
        judged,
        unsafe_judged,
        point,
        rank,
        ..
    } = *report;
    match verdict {
        Verdict::Unsafe => program.refused(format_args!(
            "{unsafe_judged} of {judged} states are unsafe, the first at point {point}, rank {rank}"
        )),
        _ => program.refused(format_args!("the verdict is {verdict}, and not safe")),
    }
}

/// Ends well if the verdict is safe; else says why it is not.
pub fn conclude(program: &Program, outcome: Outcome) -> Result<(), Failed> {
    match outcome {
        Ok(report) => match report.verdict {
            Verdict::Safe => Ok(()),
            _ => Err(not_safe(program, &report)),
        },
        Err(Stopped::Declined(why)) => Err(match why.code() {
            Some(code) => program.declined(code, why),
            None => Failed::Memory,
        }),
        Err(Stopped::Watcher(failed)) => Err(failed),
    }
}
