//! Runs over the store and the file system of this crate, and over a pile.
ghost use Rattle.std.specs.Prelude.{◌≡◌, Ok};

use crate::{Counted, Faulty, Searched, Twice, judge_first, load_twice, search_pile};
use exhaust::{Stopped, Watch};
use image::{Flat, ImageStore, Refusal};
use judging::Judgement;
use plain::Plain;
use progress::Verdict;
use run::Run;
use std::alloc::{AllocError, Global};
use std::iter::repeat_n;
use std::test::Fail;

// What a store of 8 sectors answers to a buffer of so many bytes and a sector's number.
const ACCESSES: [(usize, usize, Result<(), Refusal>); 5] = [
    (512, 0, Ok(())),
    (512, 7, Ok(())),
    (512, 8, Err(Refusal::SectorNumber)),
    (511, 7, Err(Refusal::BufferLength)),
    (513, 8, Err(Refusal::BufferLength)),
];

// A store that the plain file system recovers to no more than a root. Two writes are accepted.
fn rooted() -> Counted {
    let mut store = Counted::new(0);
    let mut sector = [0u8; 512];
    sector[0] = 2;
    sector[3] = 64;
    sector[4] = 8;
    sector[7] = 128;
    let _ = store.write(0, &sector);
    let mut nodes = [0u8; 512];
    nodes[3] = 64;
    let _ = store.write(1, &nodes);
    store
}

// A recording of one write: sector 5 gets 512 bytes of 9.
fn recorded(heap: Global) -> Result<Vec<u8>, AllocError> {
    let mut row = Vec::new(heap);
    row.extend_from_slice(b"rhswfsj\0")?;
    row.extend_from_slice(&1u64.to_le_bytes())?;
    row.extend_from_slice(&1u64.to_le_bytes())?;
    row.extend_from_slice(&512u32.to_le_bytes())?;
    row.extend(repeat_n(0, 484))?;
    for number in [5u64, 1, 0, 0] {
        row.extend_from_slice(&number.to_le_bytes())?;
    }
    row.extend(repeat_n(0, 480))?;
    row.extend(repeat_n(9, 512))?;
    Ok(row)
}

// Counts the states that it is told of.
#[derive(Drop)]
struct Told {
    states: u64,
}

impl Watch for Told {
    type Stop = ();

    ghost hears = { λ _ _ _ r _. r ≡ Ok tt };

    fn judged(&mut self, _point: usize, _rank: u64, _found: Judgement) -> Result<(), ()> {
        self.states = self.states.saturating_add(1);
        Ok(())
    }
}

#[test]
fn accepted_writes_are_counted(rt: HostRuntime) -> Result<(), Fail> {
    let mut writes: u64 = 0;
    let mut store = Counted::new(1);
    for (size, sector, answer) in ACCESSES {
        let mut buffer = vec![in rt.alloc(); 2u8; size]?;
        assert_eq!(rt; store.write(sector, buffer.as_slice()), answer);
        assert_eq!(rt; store.read(sector, buffer.as_mut_slice()), answer);
        if answer.is_ok() {
            writes = writes.saturating_add(1);
        }
        assert_eq!(rt; store.writes(), writes);
    }
    Ok(())
}

#[test]
fn no_base_recovers(rt: HostRuntime) -> Result<(), Fail> {
    let heap = rt.alloc();
    let recording = recorded(heap)?;
    let bytes = recording.as_slice();
    let Twice {
        store,
        first,
        second,
    } = load_twice(heap, rooted(), Faulty { number: 77 }, bytes);
    assert_eq!(rt; first.map_err(|refusal| refusal.code()), Err(Some((4, 0))));
    assert_eq!(rt; second.map_err(|refusal| refusal.code()), Err(Some((4, 0))));
    assert_eq!(rt; store.writes(), 2);
    Ok(())
}

#[test]
fn the_first_state_is_judged(rt: HostRuntime) -> Result<(), Fail> {
    let heap = rt.alloc();
    let recording = recorded(heap)?;
    let mut run = Run::begin(heap, rooted(), Plain);
    let found = judge_first(&mut run, recording.as_slice(), 5);
    assert_eq!(rt; run.close().writes(), 2);
    let Ok(first) = found else {
        assert!(rt; false);
        return Ok(());
    };
    assert!(rt; first.judgement.code() == (0, 0));
    assert!(rt; first.content == [0u8; 512]);
    assert_eq!(rt; first.report.judged, 1);
    assert_eq!(rt; first.report.passed, 1);
    assert!(rt; first.report.verdict == Verdict::Unfinished);
    Ok(())
}

#[test]
fn a_pile_is_searched_whole(rt: HostRuntime) -> Result<(), Fail> {
    let heap = rt.alloc();
    let recording = recorded(heap)?;
    let mut row = vec![in heap; 0u8; 4096]?;
    let mut flat = Flat::new(row.as_mut_slice());
    let rooted = rooted();
    for n in 0..8 {
        let _ = flat.write(n, &image::fetch(&rooted, n));
    }
    let mut told = Told { states: 0 };
    let Searched { store, found } = search_pile(heap, flat, Plain, recording.as_slice(), &mut told);
    assert_eq!(rt; store.count(), 8);
    let judged = match found {
        Ok(report) => Some((report.judged, report.verdict)),
        Err(Stopped::Declined(_)) => None,
        Err(Stopped::Watcher(())) => None,
    };
    assert!(rt; judged == Some((3, Verdict::Safe)));
    assert_eq!(rt; told.states, 3);
    Ok(())
}
