//! Recovers an image: prints the tree that it holds, or the fault, and writes the image afterwards
//! to another file. The image itself is never written.
#![tactic(auto)]

mod show;

use console::{Failed, Program, Usage};
use filesystem::FileSystem;
use image::{Flat, Overlay};
use journalled::Journalled;
use plain::Plain;
use recovery::recover_apart;
use show::show_outcome;
use std::process::ExitCode;

const HELP: &str = "recover FILESYSTEM IMAGE OUT

Recovers the image in IMAGE by a file system, j (journalled) or p (plain), prints
what came of it, and writes the image afterwards to OUT. An image is the first 64
whole 512-byte sectors of a file; any bytes behind them are copied as they are.
IMAGE is never written.

  N absent                 node N, 0 to 15, one a line
  N d PARENT               a directory
  N f PARENT LENGTH PRINT  a file, its print as eight hexadecimal digits
  fault NUMBER PLACE       in place of these, if the image holds no tree

  --help     this text
  --version  the version

Status 0 for a tree and for a fault, which standard error says in words; else 1
with the reason on standard error.";

const USAGE: Usage = Usage {
    name: "recover",
    version: Some("recover 0.1.0"),
    help: HELP,
    wanted: "a file system and two files are wanted, FILESYSTEM IMAGE OUT",
};

/// Reads the image, recovers it, and writes the other file.
fn recover_files<F: FileSystem>(
    program: &Program,
    system: &F,
    path: &str,
    out: &str,
) -> Result<(), Failed> {
    let mut input = program.read("image", path)?;
    let mut image = input.bytes.clone()?;
    // The two stores are made here, as in `recover_cases`: a function for both would be this one call.
    let answer = recover_apart(
        system,
        &mut Overlay::over(Flat::new(input.bytes.as_mut_slice())),
        &mut Flat::new(image.as_mut_slice()),
    );
    show_outcome(program, &answer)?;
    program.write_beside(&[input], out, image.as_slice())
}

/// Recovers by the file system that the first word names.
// `recover_apart` is generic and `LEAST` a constant, so there is no `dyn FileSystem`: each name has its own call,
// here and in `recover_cases`.
fn recover(program: Program, words: [String; 3]) -> Result<(), Failed> {
    let [name, path, out] = &words;
    match name.as_str() {
        "j" => recover_files(&program, &Journalled, path.as_str(), out.as_str()),
        "p" => recover_files(&program, &Plain, path.as_str(), out.as_str()),
        name => Err(program.refused(format_args!(
            "no file system is called {name}; j is the journalled one, p the plain one"
        ))),
    }
}

// An `Err` from main would be printed, and its reason stands on standard error already.
fn main(rt: HostRuntime) -> ExitCode {
    USAGE.run(&rt, recover)
}
