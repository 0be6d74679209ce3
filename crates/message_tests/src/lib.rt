//! What is printed of refusals, faults, judgements and verdicts. There is nothing here but tests.
#![tactic(auto)]

#[cfg(test)]
mod tables {
    use filesystem::Fault;
    use judging::Judgement;
    use progress::Verdict;
    use std::alloc::{AllocError, Global};
    use std::fmt::Display;
    use std::test::Fail;

    // Whether just this text is printed of a value.
    fn says(heap: Global, value: impl Display + Drop, text: &str) -> Result<bool, AllocError> {
        let shown = format!(in heap; "{value}")?;
        Ok(shown.as_str() == text)
    }

    #[test]
    fn stores_and_histories(rt: HostRuntime) -> Result<(), Fail> {
        use history::Refusal as History;
        use image::Refusal as Store;
        let heap = rt.alloc();
        assert!(rt; says(heap, Store::BufferLength, "the buffer has not 512 bytes")?);
        assert!(rt;
            says(
                heap,
                Store::SectorNumber,
                "the sector lies outside the image"
            )?
        );
        assert!(rt; says(heap, History::Cells, "the history has not 8 cells")?);
        assert!(rt; says(heap, History::Full, "the history holds 8 values already")?);
        Ok(())
    }

    const RECORDINGS: [(recording::Refusal, &str); 5] = [
        (
            recording::Refusal::Head,
            "it does not begin with a head sector of dm-log-writes version 1 with sectors of 512 bytes",
        ),
        (recording::Refusal::TooMany, "it has more than 256 entries"),
        (
            recording::Refusal::Incomplete { entry: 4 },
            "it ends within the sector or the data of entry 4",
        ),
        (
            recording::Refusal::Form { entry: 9 },
            "the fields, flags, text or zeros of entry 9 break the rules",
        ),
        (recording::Refusal::Trailing, "bytes follow its last entry"),
    ];

    // What is handed on from below has the same text.
    #[test]
    fn recordings(rt: HostRuntime) -> Result<(), Fail> {
        use loading::Refusal as Loading;
        use patch::Declined;
        use taking::Refusal as Taking;
        let heap = rt.alloc();
        for (refusal, text) in RECORDINGS {
            assert!(rt; says(heap, refusal, text)?);
            assert!(rt; says(heap, Declined::Recording(refusal), text)?);
            assert!(rt; says(heap, Loading::Recording(refusal), text)?);
            assert!(rt; says(heap, Taking::Reading(Loading::Recording(refusal)), text)?);
        }
        Ok(())
    }

    #[test]
    fn entries(rt: HostRuntime) -> Result<(), Fail> {
        use loading::Refusal as Loading;
        use patch::{CountsDiffer, Declined, Outside};
        let heap = rt.alloc();
        let outside = "entry 7 touches a sector outside the image";
        let data = "up to entry 7 there are more than 96 sectors of data";
        let counts = "the stores have not the same number of sectors";
        assert!(rt;
            says(
                heap,
                Outside,
                "the entry touches a sector outside the image"
            )?
        );
        assert!(rt; says(heap, Declined::OutsideImage { entry: 7 }, outside)?);
        assert!(rt; says(heap, Loading::Outside { entry: 7 }, outside)?);
        assert!(rt;
            says(
                heap,
                Loading::NoMark { entry: 7 },
                "the text of entry 7 is no mark"
            )?
        );
        assert!(rt; says(heap, Loading::TooMuchData { entry: 7 }, data)?);
        assert!(rt; says(heap, Loading::Memory, "no memory is left")?);
        assert!(rt; says(heap, CountsDiffer, counts)?);
        Ok(())
    }

    #[test]
    fn points_and_candidates(rt: HostRuntime) -> Result<(), Fail> {
        use candidates::Refusal;
        let heap = rt.alloc();
        let cases = [
            (Refusal::SectorNumber, "the sector lies outside the image"),
            (
                Refusal::Candidates { point: 8 },
                "a sector or a node has more than 8 candidates at point 8",
            ),
            (
                Refusal::States { point: 21 },
                "point 21 has more than 1048576 states",
            ),
        ];
        for (refusal, text) in cases {
            assert!(rt; says(heap, refusal, text)?);
            assert!(rt; says(heap, taking::Refusal::Points(refusal), text)?);
        }
        let lengths = "the places and the counts are not equally many";
        assert!(rt; says(heap, points::LengthsDiffer, lengths)?);
        Ok(())
    }

    #[test]
    fn trees_and_faults(rt: HostRuntime) -> Result<(), Fail> {
        let heap = rt.alloc();
        assert!(rt;
            says(
                heap,
                tree::Misplaced,
                "the rules do not allow the node here"
            )?
        );
        assert!(rt; says(heap, mark::Refusal::NoMark, "the text is no mark")?);
        let other = Fault::Other {
            number: 5,
            place: 9,
        };
        let faults = [
            (
                Fault::Format,
                "too few sectors, or another format in sector 0",
            ),
            (Fault::Count, "sector 0 names another number of sectors"),
            (Fault::Sequence, "sector 0 has no sequence number"),
            (
                Fault::NodeWord { node: 3 },
                "the word of node 3 breaks a rule",
            ),
            (other, "fault 5 at 9"),
        ];
        for (fault, text) in faults {
            assert!(rt; says(heap, fault, text)?);
        }
        Ok(())
    }

    #[test]
    fn judgements(rt: HostRuntime) -> Result<(), Fail> {
        let heap = rt.alloc();
        let cases = [
            (Judgement::Admitted, "the tree is admitted"),
            (
                Judgement::Unadmitted { node: 12 },
                "node 12 has a value that is not admitted",
            ),
            (Judgement::Faulty, "recovery finds a fault"),
        ];
        for (judgement, text) in cases {
            assert!(rt; says(heap, judgement, text)?);
        }
        Ok(())
    }

    #[test]
    fn verdicts(rt: HostRuntime) -> Result<(), Fail> {
        let heap = rt.alloc();
        let cases = [
            (Verdict::Empty, "empty"),
            (Verdict::Unfinished, "unfinished"),
            (Verdict::Safe, "safe"),
            (Verdict::Unsafe, "unsafe"),
            (Verdict::Open, "open"),
        ];
        for (verdict, text) in cases {
            assert!(rt; says(heap, verdict, text)?);
        }
        Ok(())
    }
}
