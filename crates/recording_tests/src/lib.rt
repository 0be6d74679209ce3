//! Recordings at the edges of the rules. There is nothing here but tests.
#![tactic(auto)]

#[cfg(test)]
mod tables {
    use recording::{Entry, Reader, Refusal, validate};
    use std::alloc::{AllocError, Global};
    use std::iter::repeat_n;
    use std::test::Fail;

    // What an entry's sector says.
    #[derive(Clone, Copy)]
    struct Fields {
        sector: u64,
        sectors: u64,
        flags: u64,
        size: u64,
    }

    const BARE: Fields = Fields {
        sector: 0,
        sectors: 0,
        flags: 0,
        size: 0,
    };

    const PLAIN: Fields = Fields {
        sector: 3,
        sectors: 1,
        ..BARE
    };

    const MARK: Fields = Fields {
        flags: 8,
        size: 5,
        ..BARE
    };

    // A recording's head.
    fn head(heap: Global, entries: u64) -> Result<Vec<u8>, AllocError> {
        let mut row = Vec::new(heap);
        row.extend_from_slice(b"rhswfsj\0")?;
        row.extend_from_slice(&1u64.to_le_bytes())?;
        row.extend_from_slice(&entries.to_le_bytes())?;
        row.extend_from_slice(&512u32.to_le_bytes())?;
        row.extend(repeat_n(0, 484))?;
        Ok(row)
    }

    // An entry's sector, with `text` bytes of text in it.
    fn push_sector(row: &mut Vec<u8>, fields: Fields, text: usize) -> Result<(), AllocError> {
        let Fields {
            sector,
            sectors,
            flags,
            size,
        } = fields;
        for number in [sector, sectors, flags, size] {
            row.extend_from_slice(&number.to_le_bytes())?;
        }
        row.extend(repeat_n(b'x', text))?;
        row.extend(repeat_n(0, 480usize.saturating_sub(text)))
    }

    // A recording of one entry with so much text and data.
    fn single(
        heap: Global,
        fields: Fields,
        text: usize,
        content: usize,
    ) -> Result<Vec<u8>, AllocError> {
        let mut row = head(heap, 1)?;
        push_sector(&mut row, fields, text)?;
        row.extend(repeat_n(9, content))?;
        Ok(row)
    }

    // A recording with a mark, a write and a discard.
    fn small(heap: Global) -> Result<Vec<u8>, AllocError> {
        let mut row = head(heap, 3)?;
        push_sector(&mut row, MARK, 5)?;
        push_sector(&mut row, PLAIN, 0)?;
        row.extend(repeat_n(9, 512))?;
        let discard = Fields {
            sector: 7,
            sectors: 2,
            flags: 4,
            ..BARE
        };
        push_sector(&mut row, discard, 0)?;
        Ok(row)
    }

    // What is declined of the small recording's first n bytes.
    fn cut_answer(n: usize) -> Result<u64, Refusal> {
        match n {
            0..512 => Err(Refusal::Head),
            512..1024 => Err(Refusal::Incomplete { entry: 1 }),
            1024..2048 => Err(Refusal::Incomplete { entry: 2 }),
            2048..2560 => Err(Refusal::Incomplete { entry: 3 }),
            _ => Ok(3),
        }
    }

    #[test]
    fn cut_at_every_length(rt: HostRuntime) -> Result<(), Fail> {
        let row = small(rt.alloc())?;
        assert_eq!(rt; row.len(), 2560);
        let bytes = row.as_slice();
        for n in 0..bytes.len() {
            assert!(rt; validate(&bytes[0..n]) == cut_answer(n));
        }
        assert!(rt; validate(bytes) == Ok(3));
        Ok(())
    }

    #[test]
    fn bytes_behind_the_last_entry(rt: HostRuntime) -> Result<(), Fail> {
        let mut row = small(rt.alloc())?;
        row.push(0)?;
        assert!(rt; validate(row.as_slice()) == Err(Refusal::Trailing));
        Ok(())
    }

    #[test]
    fn every_byte_of_the_head(rt: HostRuntime) -> Result<(), Fail> {
        for i in 0..512usize {
            let mut row = head(rt.alloc(), 0)?;
            if let Some(b) = row.get_mut(i) {
                *b ^= 1;
            }
            let answer = validate(row.as_slice());
            let refusal = match i {
                16..=17 => Refusal::Incomplete { entry: 1 },
                18..24 => Refusal::TooMany,
                _ => Refusal::Head,
            };
            assert!(rt; answer == Err(refusal));
        }
        Ok(())
    }

    #[test]
    fn number_of_entries(rt: HostRuntime) -> Result<(), Fail> {
        let flush = Fields { flags: 1, ..BARE };
        let mut row = head(rt.alloc(), 256)?;
        for _ in 0..256 {
            push_sector(&mut row, flush, 0)?;
        }
        assert!(rt; validate(row.as_slice()) == Ok(256));
        let bare = head(rt.alloc(), 257)?;
        assert!(rt; validate(bare.as_slice()) == Err(Refusal::TooMany));
        let none = head(rt.alloc(), 0)?;
        assert!(rt; validate(none.as_slice()) == Ok(0));
        Ok(())
    }

    #[test]
    fn every_combination_of_flags(rt: HostRuntime) -> Result<(), Fail> {
        let bare = [1u64, 3, 5, 8, 17, 19, 21];
        let whole = [0u64, 1, 2, 3, 4, 5, 16, 17, 18, 19, 20, 21];
        for flags in 0..64u64 {
            let fields = Fields { flags, ..BARE };
            let row = single(rt.alloc(), fields, 0, 0)?;
            let answer = validate(row.as_slice());
            assert_eq!(rt; answer.is_ok(), bare.contains(&flags));
            assert!(rt; answer.is_ok() || answer == FORM);
            let fields = Fields {
                sectors: 1,
                flags,
                ..BARE
            };
            let content = if flags & 4 == 0 { 512 } else { 0 };
            let row = single(rt.alloc(), fields, 0, content)?;
            let answer = validate(row.as_slice());
            assert_eq!(rt; answer.is_ok(), whole.contains(&flags));
            assert!(rt; answer.is_ok() || answer == FORM);
        }
        Ok(())
    }

    #[derive(Clone, Copy)]
    struct Case {
        fields: Fields,
        text: usize,
        content: usize,
        answer: Result<u64, Refusal>,
    }

    const CUT: Result<u64, Refusal> = Err(Refusal::Incomplete { entry: 1 });

    const FORM: Result<u64, Refusal> = Err(Refusal::Form { entry: 1 });

    // A row of the table below; a literal for each row would be no plainer.
    fn told(
        sector: u64,
        sectors: u64,
        flags: u64,
        size: u64,
        text: usize,
        content: usize,
        answer: Result<u64, Refusal>,
    ) -> Case {
        let fields = Fields {
            sector,
            sectors,
            flags,
            size,
        };
        Case {
            fields,
            text,
            content,
            answer,
        }
    }

    #[test]
    fn texts_and_sectors(rt: HostRuntime) -> Result<(), Fail> {
        let cases = [
            told(0, 0, 8, 480, 480, 0, Ok(1)),
            told(0, 0, 8, 481, 480, 0, FORM),
            told(0, 0, 8, u64::MAX, 480, 0, FORM),
            told(0, 0, 8, 4, 5, 0, FORM),
            told(0, 0, 8, 6, 5, 0, Ok(1)),
            told(0, 0, 8, 0, 0, 0, Ok(1)),
            told(1, 0, 8, 0, 0, 0, FORM),
            told(0, 1, 8, 0, 0, 512, FORM),
            told(0, 0, 1, 1, 1, 0, FORM),
            told(u64::MAX, 0, 1, 0, 0, 0, Ok(1)),
            told(0, 0, 32, 0, 0, 0, FORM),
            told(0, 0, 33, 0, 0, 0, FORM),
            told(0, 1, 1 << 63, 0, 0, 512, FORM),
            told(0, 2, 0, 0, 0, 1024, Ok(1)),
            told(0, 2, 0, 0, 0, 1023, CUT),
            told(0, 1 << 55, 0, 0, 0, 512, CUT),
            told(0, u64::MAX, 0, 0, 0, 512, CUT),
            told(u64::MAX, u64::MAX, 4, 0, 0, 0, Ok(1)),
            told(u64::MAX, 1 << 55, 4, 0, 0, 0, Ok(1)),
        ];
        for c in &cases {
            let row = single(rt.alloc(), c.fields, c.text, c.content)?;
            assert!(rt; validate(row.as_slice()) == c.answer);
        }
        Ok(())
    }

    #[test]
    fn step_by_step(rt: HostRuntime) -> Result<(), Fail> {
        let row = small(rt.alloc())?;
        let mut reader = Reader::open(row.as_slice())?;
        assert!(rt; reader.header()?.is_some());
        let Some(Entry::Mark { text, place }) = reader.next()? else {
            return Err(Fail::new("no mark"));
        };
        assert!(rt; text == b"xxxxx".as_slice());
        assert_eq!(rt; place, 544);
        let Some(
            Entry::Write {
                sector,
                content,
                place,
                ..
            },
        ) = reader.next()?
        else {
            return Err(Fail::new("no write"));
        };
        assert_eq!(rt; sector, 3);
        assert_eq!(rt; content.len(), 512);
        assert_eq!(rt; place, 1536);
        assert_eq!(rt; reader.left(), 1);
        assert!(rt; reader.next()?.is_some());
        assert!(rt; reader.next()?.is_none());
        assert!(rt; reader.header()?.is_none());
        Ok(())
    }

    #[test]
    fn a_refusal_leaves_the_place(rt: HostRuntime) -> Result<(), Fail> {
        let row = small(rt.alloc())?;
        let bytes = row.as_slice();
        assert!(rt; bytes.len() == 2560);
        let mut reader = Reader::open(&bytes[0..2000])?;
        assert!(rt; reader.next()?.is_some());
        assert_eq!(rt; reader.place(), 1024);
        assert!(rt; reader.header()?.is_some());
        for _ in 0..3 {
            assert!(rt; reader.next().is_err());
            assert_eq!(rt; reader.place(), 1024);
            assert_eq!(rt; reader.left(), 2);
        }
        Ok(())
    }

    #[test]
    fn numbers_of_refusals(rt: HostRuntime) {
        assert!(rt; Refusal::Head.code() == (5, 0));
        assert!(rt; Refusal::TooMany.code() == (6, 0));
        assert!(rt; Refusal::Incomplete { entry: 4 }.code() == (7, 4));
        assert!(rt; Refusal::Form { entry: 9 }.code() == (8, 9));
        assert!(rt; Refusal::Trailing.code() == (12, 0));
    }
}
