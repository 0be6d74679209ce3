//! Recordings at the edges of the limits of crash points. There is nothing here but tests.
#![tactic(auto)]

#[cfg(test)]
mod tables {
    use candidates::{candidates_of, node_values};
    use image::{Flat, ImageStore};
    use loading::read_trace;
    use points::{LengthsDiffer, advance, check_points, point_states};
    use std::alloc::{AllocError, Global};
    use std::iter::repeat_n;
    use std::test::Fail;
    use tree::Node;

    const FLUSH: u64 = 1;

    const FUA: u64 = 2;

    const DISCARD: u64 = 4;

    const MARK: u64 = 8;

    // An entry: so many sectors from `sector` on, full of one byte, or a text.
    #[derive(Clone, Copy)]
    struct Line {
        sector: u64,
        sectors: u64,
        flags: u64,
        fill: u8,
        text: &'static [u8],
    }

    // A write of one sector.
    fn write(sector: u64, fill: u8, flags: u64) -> Line {
        Line {
            sector,
            sectors: 1,
            flags,
            fill,
            text: b"",
        }
    }

    fn mark(text: &'static [u8]) -> Line {
        Line {
            sector: 0,
            sectors: 0,
            flags: MARK,
            fill: 0,
            text,
        }
    }

    // A recording's head. `recording_tests` has the same, and a sector alike: tests lend nothing to other crates, and
    // a library of two helpers for two crates of tests would be a public one.
    fn head(heap: Global, entries: u64) -> Result<Vec<u8>, AllocError> {
        let mut row = Vec::new(heap);
        row.extend_from_slice(b"rhswfsj\0")?;
        row.extend_from_slice(&1u64.to_le_bytes())?;
        row.extend_from_slice(&entries.to_le_bytes())?;
        row.extend_from_slice(&512u32.to_le_bytes())?;
        row.extend(repeat_n(0, 484))?;
        Ok(row)
    }

    // Appends an entry's sector.
    fn push_sector(row: &mut Vec<u8>, line: Line) -> Result<(), AllocError> {
        // No From leads from usize to u64.
        let size = line.text.len() as u64;
        for number in [line.sector, line.sectors, line.flags, size] {
            row.extend_from_slice(&number.to_le_bytes())?;
        }
        row.extend_from_slice(line.text)?;
        row.extend(repeat_n(0, 480usize.saturating_sub(line.text.len())))
    }

    // Appends an entry with its data.
    fn push_line(row: &mut Vec<u8>, line: Line) -> Result<(), AllocError> {
        push_sector(row, line)?;
        if line.flags & (DISCARD + MARK) == 0 {
            // At most 1000: the cast loses no bit.
            let n = line.sectors.min(1000) as usize;
            row.extend(repeat_n(line.fill, n * 512))?;
        }
        Ok(())
    }

    fn recorded(heap: Global, lines: &[Line]) -> Result<Vec<u8>, AllocError> {
        // No From leads from usize to u64.
        let mut row = head(heap, lines.len() as u64)?;
        for line in lines {
            push_line(&mut row, *line)?;
        }
        Ok(row)
    }

    // The number of states of the last point, or the number and the place of the refusal; want of memory has none.
    type Answer = Result<u64, Option<(u64, u64)>>;

    fn states_of(heap: Global, row: &[u8], base: &Flat) -> Answer {
        let trace = read_trace(heap, row, base).map_err(|refusal| refusal.code())?;
        check_points(&trace, base).map_err(|refusal| Some(refusal.code()))?;
        point_states(&trace, base, trace.len()).map_err(|refusal| Some(refusal.code()))
    }

    // The same over 64 sectors full of 3.
    fn answer(heap: Global, row: &[u8]) -> Result<Answer, AllocError> {
        let mut base = vec![in heap; 3u8; 32768]?;
        let flat = Flat::new(base.as_mut_slice());
        Ok(states_of(heap, row, &flat))
    }

    fn answer_lines(heap: Global, lines: &[Line]) -> Result<Answer, AllocError> {
        let row = recorded(heap, lines)?;
        answer(heap, row.as_slice())
    }

    // So many sectors, each written once.
    fn spread(heap: Global, n: u64) -> Result<Vec<Line>, AllocError> {
        (0..n).map(|s| write(s, 1, 0)).collect(heap)
    }

    // One sector written n times, with other bytes each time.
    fn stack(heap: Global, n: u8) -> Result<Vec<Line>, AllocError> {
        (0..n)
            .map(|i| write(40, i.saturating_add(10), 0))
            .collect(heap)
    }

    #[test]
    fn twenty_sectors_pass_and_one_more_is_declined(rt: HostRuntime) -> Result<(), Fail> {
        let heap = rt.alloc();
        let twenty = spread(heap, 20)?;
        assert!(rt; answer_lines(heap, twenty.as_slice())? == Ok(1048576));
        let more = spread(heap, 21)?;
        assert!(rt; answer_lines(heap, more.as_slice())? == Err(Some((14, 21))));
        Ok(())
    }

    #[test]
    fn seven_writes_pass_and_eight_are_declined(rt: HostRuntime) -> Result<(), Fail> {
        let heap = rt.alloc();
        let seven = stack(heap, 7)?;
        assert!(rt; answer_lines(heap, seven.as_slice())? == Ok(8));
        let eight = stack(heap, 8)?;
        assert!(rt; answer_lines(heap, eight.as_slice())? == Err(Some((13, 8))));
        Ok(())
    }

    #[test]
    fn equal_writes_count(rt: HostRuntime) -> Result<(), Fail> {
        let heap = rt.alloc();
        assert!(rt; answer_lines(heap, &[write(5, 3, 0); 7])? == Ok(1));
        assert!(rt; answer_lines(heap, &[write(5, 3, 0); 8])? == Err(Some((13, 8))));
        assert!(rt; answer_lines(heap, &[write(5, 7, 0); 7])? == Ok(2));
        Ok(())
    }

    #[test]
    fn a_full_history_is_no_obstacle(rt: HostRuntime) -> Result<(), Fail> {
        let heap = rt.alloc();
        let mut fua = stack(heap, 7)?;
        fua.push(write(40, 1, FUA))?;
        assert!(rt; answer_lines(heap, fua.as_slice())? == Ok(1));
        let mut flush = stack(heap, 7)?;
        flush.push(write(40, 1, FLUSH))?;
        assert!(rt; answer_lines(heap, flush.as_slice())? == Ok(2));
        let mut other = stack(heap, 7)?;
        other.push(write(41, 1, FUA))?;
        assert!(rt; answer_lines(heap, other.as_slice())? == Ok(8));
        Ok(())
    }

    #[test]
    fn candidates_come_before_states(rt: HostRuntime) -> Result<(), Fail> {
        let heap = rt.alloc();
        let mut lines = spread(heap, 17)?;
        lines.extend_from_slice(stack(heap, 7)?.as_slice())?;
        assert!(rt; answer_lines(heap, lines.as_slice())? == Ok(1048576));
        lines.push(write(40, 99, 0))?;
        assert!(rt; answer_lines(heap, lines.as_slice())? == Err(Some((13, 25))));
        Ok(())
    }

    #[test]
    fn nodes_are_limited_too(rt: HostRuntime) -> Result<(), Fail> {
        let heap = rt.alloc();
        assert!(rt; answer_lines(heap, &[mark(b"x 1"); 7])? == Ok(1));
        assert!(rt; answer_lines(heap, &[mark(b"x 1"); 8])? == Err(Some((13, 8))));
        let mut lines = [mark(b"d 2 0"); 12];
        lines[6] = mark(b"s 2");
        assert!(rt; answer_lines(heap, &lines)? == Ok(1));
        lines[6] = mark(b"s 3");
        assert!(rt; answer_lines(heap, &lines)? == Err(Some((13, 9))));
        Ok(())
    }

    #[test]
    fn checks_in_their_order(rt: HostRuntime) -> Result<(), Fail> {
        let heap = rt.alloc();
        let mut outside = head(heap, 1)?;
        push_sector(&mut outside, write(64, 0, 0))?;
        assert!(rt; answer(heap, outside.as_slice())? == Err(Some((9, 1))));
        let mut far = head(heap, 1)?;
        push_sector(&mut far, write(u64::MAX, 0, 0))?;
        assert!(rt; answer(heap, far.as_slice())? == Err(Some((9, 1))));
        let mut cut = head(heap, 1)?;
        push_sector(&mut cut, write(63, 0, 0))?;
        assert!(rt; answer(heap, cut.as_slice())? == Err(Some((7, 1))));
        let wrong = Line {
            sectors: 0,
            ..write(0, 0, 0)
        };
        assert!(rt; answer_lines(heap, &[wrong])? == Err(Some((8, 1))));
        assert!(rt;
            answer_lines(heap, &[write(0, 0, 0), mark(b"f 1"), wrong])? == Err(Some((10, 2)))
        );
        Ok(())
    }

    #[test]
    fn at_most_96_sectors_of_data(rt: HostRuntime) -> Result<(), Fail> {
        let heap = rt.alloc();
        let wide = Line {
            sectors: 48,
            ..write(0, 3, FUA)
        };
        let zeros = Line {
            sectors: 10,
            ..write(0, 0, DISCARD + FLUSH)
        };
        assert!(rt; answer_lines(heap, &[wide, zeros, wide])? == Ok(1));
        assert!(rt;
            answer_lines(heap, &[wide, zeros, wide, write(0, 0, 0)])? == Err(Some((11, 4)))
        );
        Ok(())
    }

    #[test]
    fn a_product_above_64_bits(rt: HostRuntime) -> Result<(), Fail> {
        let heap = rt.alloc();
        let all = Line {
            sectors: 64,
            ..write(0, 0, DISCARD)
        };
        assert!(rt; answer_lines(heap, &[all])? == Err(Some((14, 1))));
        let some = Line {
            sectors: 20,
            ..write(44, 0, DISCARD)
        };
        assert!(rt; answer_lines(heap, &[some, some])? == Ok(1048576));
        Ok(())
    }

    #[test]
    fn bytes_behind_come_before_too_many_candidates(rt: HostRuntime) -> Result<(), Fail> {
        let heap = rt.alloc();
        let mut row = recorded(heap, &[write(5, 3, 0); 8])?;
        row.push(0)?;
        assert!(rt; answer(heap, row.as_slice())? == Err(Some((12, 0))));
        Ok(())
    }

    #[test]
    fn numbers_of_candidates(rt: HostRuntime) -> Result<(), Fail> {
        let heap = rt.alloc();
        let lines = [
            write(5, 1, 0),
            write(5, 2, 0),
            write(5, 1, 0),
            write(5, 3, 0),
        ];
        let row = recorded(heap, &lines)?;
        let mut base = vec![in heap; 3u8; 4096]?;
        let flat = Flat::new(base.as_mut_slice());
        let trace = read_trace(heap, row.as_slice(), &flat)?;
        let few = candidates_of(&trace, &flat, 5, 4)?;
        assert!(rt; few.values() == [0, 1, 2].as_slice());
        assert!(rt; candidates_of(&trace, &flat, 8, 4).is_err());
        let nodes = node_values(&trace, Node::Absent, 1, 4)?;
        assert!(rt; nodes.values().len() == 1);
        Ok(())
    }

    #[test]
    fn places_in_lexicographic_order(rt: HostRuntime) -> Result<(), Fail> {
        let counts = [2usize, 1, 3];
        let mut places = [0usize; 3];
        // the first sector whose place changes, and the places then
        let moves = [
            (2usize, [0usize, 0, 1]),
            (2, [0, 0, 2]),
            (0, [1, 0, 0]),
            (2, [1, 0, 1]),
            (2, [1, 0, 2]),
        ];
        for (first, order) in moves {
            assert!(rt; advance(&mut places, &counts) == Ok(Some(first)));
            assert!(rt; places == order);
        }
        assert!(rt; advance(&mut places, &counts) == Ok(None));
        assert!(rt; places == [0, 0, 0]);
        assert!(rt; advance(&mut places, &[2, 3]) == Err(LengthsDiffer));
        Ok(())
    }
}
