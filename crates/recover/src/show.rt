//! An outcome in words.
use console::{Failed, Program};
use filesystem::Fault;
use recovery::outcome_lines;
use tree::Tree;

/// Prints the lines of an outcome, and on standard error what a fault means.
pub fn show_outcome(program: &Program, answer: &Result<Tree, Fault>) -> Result<(), Failed> {
    let rt = program.rt;
    let lines = outcome_lines(rt.alloc(), answer)?;
    rt.print(lines.as_str())?;
    if let Err(fault) = answer {
        let (number, place) = fault.code();
        // Not by `refused`: an image that holds no tree is no failure of the program.
        eprintln!(rt; "recover: the image holds no tree, fault {number}, place {place}: {fault}")?;
    }
    Ok(())
}
