//! The release of the story, and the image that it begins with.
use crate::log::Log;
use console::{Failed, Program};
use image::SECTOR;
use std::alloc::{AllocError, Global};
use tree::print;

/// The sector of the header, node 1: its first byte counts the objects.
pub const HEADER: usize = 2;

/// The sector of the objects, node 2: a byte each, 0 where there is none.
const OBJECTS: u64 = 3;

/// How many objects the older header counts.
pub const OLDER: u8 = 2;

/// How many objects the newer header counts.
const NEWER: u8 = 3;

/// How many sectors the image has.
const COUNT: u32 = 4;

/// The release as it was, or with a flush between its last write and its claim.
#[derive(Clone, Copy, PartialEq, Eq)]
pub enum Release {
    NoFlush,
    Flush,
}

/// The image that the release begins with: an empty header, and no objects.
pub fn base_image(heap: Global) -> Result<Vec<u8>, AllocError> {
    let mut bytes = Vec::new(heap);
    // The head: the plain file system, with so many sectors.
    for word in [0x4000_0002, 0x8000_0000 | COUNT] {
        bytes.extend_from_slice(&word.to_le_bytes())?;
    }
    bytes.resize(SECTOR, 0)?;
    // The node words: a directory, a file of one byte in sector 2, a file of three in sector 3.
    for word in [0x4000_0000u32, 0x8001_0002, 0x8003_0003] {
        bytes.extend_from_slice(&word.to_le_bytes())?;
    }
    bytes.resize(SECTOR * 4, 0)?;
    Ok(bytes)
}

/// Says and records that a node may from here on be a file of these bytes.
fn promise(program: &Program, log: &mut Log, node: u8, content: &[u8]) -> Result<(), Failed> {
    let length = content.len();
    let print = print(content);
    let text = format!(in program.rt.alloc(); "f {node} 0 {length} {print:08x}")?;
    log.mark(text.as_bytes())?;
    Ok(())
}

/// Writes the header with its count of objects.
fn write_header(program: &Program, log: &mut Log, objects: u8) -> Result<(), Failed> {
    promise(program, log, 1, &[objects])?;
    log.write(HEADER as u64, &[objects])?;
    Ok(())
}

/// Prints a step.
fn say(program: &Program, words: &str) -> Result<(), Failed> {
    program.rt.println(words)?;
    Ok(())
}

/// Records the release, and prints each step.
pub fn record(program: &Program, log: &mut Log, release: Release) -> Result<(), Failed> {
    say(
        program,
        match release {
            Release::NoFlush => "A release writes a header twice between the same two flushes.",
            Release::Flush =>
                "The same release, with a flush between the second header and the claim.",
        },
    )?;
    say(program, "  entry 1: a flush")?;
    log.flush()?;
    say(
        program,
        "  entries 2, 3: the header may count 2 objects, and is written",
    )?;
    write_header(program, log, OLDER)?;
    say(
        program,
        "  entries 4, 5: there may be 3 objects, since one came late, and they are written",
    )?;
    promise(program, log, 2, b"abc")?;
    log.write(OBJECTS, b"abc")?;
    say(
        program,
        "  entries 6, 7: the header may count 3 objects, and is written again",
    )?;
    write_header(program, log, NEWER)?;
    if release == Release::Flush {
        say(program, "  entry 8: a flush")?;
        log.flush()?;
    }
    say(
        program,
        "  then the release claims that the header with its 3 objects is on the disk, and flushes",
    )?;
    log.mark(b"s 1")?;
    log.flush()?;
    Ok(())
}
