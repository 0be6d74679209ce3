//! What may be done with a run that is over: it reports before it is closed, and then its base is written to. With either
//! line in another place the check turns this program away (turned-away/README.md).
#![tactic(auto)]

use image::{Flat, ImageStore, SECTOR};
use plain::Plain;
use run::Run;
use std::io;

fn main(rt: HostRuntime) -> Result<(), io::Error> {
    let mut row = [0u8; 4096];
    let sector = [1u8; SECTOR];
    let mut base = Flat::new(&mut row);
    let mut run = Run::begin(rt.alloc(), base, Plain);
    let loaded = run.load(&sector);
    let report = run.report();
    base = run.close();
    let written = base.write(0, &sector);
    println!(rt; "{} {} {}", loaded.is_ok(), report.verdict, written.is_ok())
}
