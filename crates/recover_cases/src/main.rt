//! Recovers images of which is known what comes of them, and compares.
#![tactic(auto)]

use console::{Failed, Program, Usage};
use filesystem::FileSystem;
use image::{Flat, Overlay};
use journalled::Journalled;
use plain::Plain;
use recovery::{outcome_lines, recover_apart};
use std::process::ExitCode;

const HELP: &str = "recover_cases LIST

Recovers images and compares what comes of them with what is known. LIST has a case
a line: NAME FILESYSTEM CHANGE, and then any words. FILESYSTEM is j or p, and CHANGE
is changed or kept. NAME.img is the image, NAME.txt has the lines that recover prints
for it, and NAME.after is the image afterwards, if CHANGE is changed; else the image
stays as it was. The files are looked for in the working folder.

Prints a line for each case. Status 0 if none differs, else 1.";

const USAGE: Usage = Usage {
    name: "recover_cases",
    version: None,
    help: HELP,
    wanted: "a list of cases is wanted",
};

/// A line of the list: the case's name, its file system, and which file has the image afterwards.
#[derive(Clone, Copy)]
struct Case<'a> {
    name: &'a str,
    system: &'a str,
    after: &'a str,
}

/// What the case's line says.
fn read_case(line: &str) -> Option<Case<'_>> {
    let mut words = line.split_whitespace();
    let (name, system, change) = (words.next()?, words.next()?, words.next()?);
    let after = match change {
        "changed" => "after",
        "kept" => "img",
        _ => return None,
    };
    Some(Case {
        name,
        system,
        after,
    })
}

// The program and a case go together through three functions: the program is one for all cases, and a pair would be
// made anew for each.
/// The bytes of one of the case's files.
fn read_part(program: &Program, case: Case, part: &str) -> Result<Vec<u8>, Failed> {
    let name = case.name;
    let path = format!(in program.rt.alloc(); "{name}.{part}")?;
    Ok(program.read("file", path.as_str())?.bytes)
}

/// Whether the case comes out as it should.
fn agrees<F: FileSystem>(program: &Program, system: &F, case: Case) -> Result<bool, Failed> {
    let before = read_part(program, case, "img")?;
    let mut held = before.clone()?;
    let mut image = before.clone()?;
    // The two stores are made here, as in `recover`: a function for both would be this one call.
    let answer = recover_apart(
        system,
        &mut Overlay::over(Flat::new(held.as_mut_slice())),
        &mut Flat::new(image.as_mut_slice()),
    );
    let lines = outcome_lines(program.rt.alloc(), &answer)?;
    let wanted = read_part(program, case, "txt")?;
    let after = read_part(program, case, case.after)?;
    Ok(
        lines.as_bytes() == wanted.as_slice()
            && image.as_slice() == after.as_slice()
            && held.as_slice() == before.as_slice(),
    )
}

/// The same, by the file system that the case names.
// `recover_apart` is generic and `LEAST` a constant, so there is no `dyn FileSystem`: each name has its own call,
// here and in `recover`.
fn agrees_named(program: &Program, case: Case) -> Result<bool, Failed> {
    match case.system {
        "j" => agrees(program, &Journalled, case),
        "p" => agrees(program, &Plain, case),
        other => Err(program.refused(format_args!("no file system is called {other}"))),
    }
}

/// Tries the case of a line, and says how it came out.
fn try_line(program: &Program, line: &str) -> Result<bool, Failed> {
    let case = read_case(line).ok_or_else(|| program.refused(format_args!(
        "this line is no case: {line}"
    )))?;
    let right = agrees_named(program, case)?;
    let Case { name, system, .. } = case;
    let word = if right { "ok" } else { "differs" };
    println!(program.rt; "{name} {system} {word}")?;
    Ok(right)
}

/// Tries every case of the list.
fn try_all(program: &Program, list: &str) -> Result<(), Failed> {
    let mut cases = 0u64;
    let mut differ = 0u64;
    for line in list.lines() {
        let right = try_line(program, line)?;
        cases = cases.saturating_add(1);
        differ = differ.saturating_add(u64::from(!right));
    }
    println!(program.rt; "{cases} cases, {differ} differ")?;
    if differ == 0 {
        Ok(())
    } else {
        Err(Failed::Said)
    }
}

/// Reads the list, and tries its cases.
fn try_list(program: Program, words: [String; 1]) -> Result<(), Failed> {
    let [path] = &words;
    let list = program.read("list", path.as_str())?;
    let list = String::from_utf8(list.bytes).map_err(|_| program.refused("the list is no text"))?;
    try_all(&program, list.as_str())
}

// An `Err` from main would be printed, and its reason stands on standard error already.
fn main(rt: HostRuntime) -> ExitCode {
    USAGE.run(&rt, try_list)
}
