//! Image stores at the edges of their limits. There is nothing here but tests.
#![tactic(auto)]

#[cfg(test)]
mod tables {
    use image::{Flat, ImageStore, Overlay, Refusal};
    use std::test::Fail;

    // What a store of 64 sectors answers to a buffer of so many bytes and a sector's number.
    const ACCESSES: [(usize, usize, Result<(), Refusal>); 9] = [
        (512, 0, Ok(())),
        (512, 63, Ok(())),
        (512, 64, Err(Refusal::SectorNumber)),
        (512, usize::MAX, Err(Refusal::SectorNumber)),
        (511, 63, Err(Refusal::BufferLength)),
        (513, 63, Err(Refusal::BufferLength)),
        (511, 64, Err(Refusal::BufferLength)),
        (513, 64, Err(Refusal::BufferLength)),
        (0, 0, Err(Refusal::BufferLength)),
    ];

    // How many sectors so many bytes have.
    const SIZES: [(usize, usize); 9] = [
        (0, 0),
        (511, 0),
        (512, 1),
        (513, 1),
        (1023, 1),
        (32767, 63),
        (32768, 64),
        (33280, 64),
        (33380, 64),
    ];

    #[test]
    fn counts(rt: HostRuntime) -> Result<(), Fail> {
        for (bytes, sectors) in SIZES {
            let mut row = vec![in rt.alloc(); 7u8; bytes]?;
            let flat = Flat::new(row.as_mut_slice());
            assert_eq!(rt; flat.count(), sectors);
            let over = Overlay::over(flat);
            assert_eq!(rt; over.count(), sectors);
        }
        Ok(())
    }

    #[test]
    fn flat_answers(rt: HostRuntime) -> Result<(), Fail> {
        for (size, sector, answer) in ACCESSES {
            let mut row = vec![in rt.alloc(); 1u8; 32868]?;
            let mut buffer = vec![in rt.alloc(); 2u8; size]?;
            let mut flat = Flat::new(row.as_mut_slice());
            assert_eq!(rt; flat.write(sector, buffer.as_slice()), answer);
            assert_eq!(rt; flat.read(sector, buffer.as_mut_slice()), answer);
            let changed = count_of(row.as_slice(), 2);
            assert_eq!(rt; changed, if answer.is_ok() { 512 } else { 0 });
        }
        Ok(())
    }

    #[test]
    fn overlay_answers(rt: HostRuntime) -> Result<(), Fail> {
        for (size, sector, answer) in ACCESSES {
            let mut row = vec![in rt.alloc(); 1u8; 32868]?;
            let mut buffer = vec![in rt.alloc(); 2u8; size]?;
            let mut over = Overlay::over(Flat::new(row.as_mut_slice()));
            assert_eq!(rt; over.write(sector, buffer.as_slice()), answer);
            assert_eq!(rt; over.read(sector, buffer.as_mut_slice()), answer);
            assert_eq!(rt; over.held(), if answer.is_ok() { 1 } else { 0 });
            drop(over);
            assert_eq!(rt; count_of(row.as_slice(), 2), 0);
        }
        Ok(())
    }

    // How often a byte stands in a row.
    fn count_of(row: &[u8], byte: u8) -> usize {
        row.iter().filter(|b| **b == byte).count()
    }

    // What the first byte of a sector is.
    fn first_of<S: ImageStore>(store: &S, n: usize) -> Option<u8> {
        let mut buffer = [0u8; 512];
        store.read(n, &mut buffer).ok()?;
        Some(buffer[0])
    }

    #[test]
    fn overlays_lie_on_overlays(rt: HostRuntime) {
        let mut row = [1u8; 1536];
        let mut low = Overlay::over(Flat::new(&mut row));
        assert!(rt; low.write(1, &[2u8; 512]).is_ok());
        let mut high = Overlay::over(low);
        assert!(rt; high.write(2, &[3u8; 512]).is_ok());
        assert!(rt; high.write(2, &[4u8; 512]).is_ok());
        assert_eq!(rt; high.held(), 1);
        assert_eq!(rt; first_of(&high, 0), Some(1));
        assert_eq!(rt; first_of(&high, 1), Some(2));
        assert_eq!(rt; first_of(&high, 2), Some(4));
        assert_eq!(rt; first_of(&high.below, 2), Some(1));
        high.forget();
        assert_eq!(rt; high.held(), 0);
        assert_eq!(rt; first_of(&high, 2), Some(1));
        let low = high.into_below();
        assert_eq!(rt; low.held(), 1);
        assert_eq!(rt; first_of(&low, 1), Some(2));
    }

    #[test]
    fn bytes_behind_the_last_sector_stay(rt: HostRuntime) {
        let mut row = [1u8; 1124];
        let mut flat = Flat::new(&mut row);
        assert!(rt; flat.write(0, &[2u8; 512]).is_ok());
        assert!(rt; flat.write(1, &[2u8; 512]).is_ok());
        assert_eq!(rt; flat.write(2, &[2u8; 512]), Err(Refusal::SectorNumber));
        assert_eq!(rt; count_of(&row, 2), 1024);
        assert_eq!(rt; count_of(&row[1024..1124], 1), 100);
    }

    #[test]
    fn numbers_of_refusals(rt: HostRuntime) {
        assert_eq!(rt; Refusal::BufferLength.code(), (1, 0));
        assert_eq!(rt; Refusal::SectorNumber.code(), (2, 0));
    }
}
