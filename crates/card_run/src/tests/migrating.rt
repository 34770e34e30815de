// The form `migrate`, over a bench in memory.
use super::{WITH_ANN, fresh_card, lay, no_faults, run_over};
use eeprom::MemBench;
use program::Status;
use std::alloc::{AllocError, Global};
use std::test::Fail;

/// What a migration makes different in an image.
const LONG_ROWS: [(usize, &[u8]); 2] = [(5, &[0x01]), (9, &[0x03, 0xFC])];

/// ANN is there, and BOB isn't.
const PRESENT_TWO: &str = "001400800403414E4E
001400800403424F42
";

const ANN_ALONE: &[u8] = b"9000\n6A88\n";

// A card with ANN.
fn card_with_ann(alloc: Global) -> Result<Vec<u8>, AllocError> {
    let mut image = fresh_card(alloc)?;
    lay(image.as_mut_slice(), &WITH_ANN);
    Ok(image)
}

// A migration of an image, over an input that it doesn't read.
fn migration(alloc: Global, image: &[u8]) -> Result<(Status, MemBench), AllocError> {
    run_over(alloc, &["migrate"], PRESENT_TWO, image, no_faults(alloc))
}

#[test]
fn migrated_once(rt: HostRuntime) -> Result<(), Fail> {
    let alloc = rt.alloc();
    let mut image = card_with_ann(alloc)?;
    let (status, first) = migration(alloc, &image)?;
    assert!(rt; status == Status::Done);
    assert_eq!(rt; first.given(), b"migrated\n".as_slice());
    lay(image.as_mut_slice(), &LONG_ROWS);
    assert_eq!(rt; first.image(), image.as_slice());
    let (status, second) = migration(alloc, first.image())?;
    assert!(rt; status == Status::Done);
    assert_eq!(rt; second.given(), b"already migrated\n".as_slice());
    assert_eq!(rt; second.image(), image.as_slice());
    assert_eq!(rt; second.writes(), 0);
    Ok(())
}

// Power is lost within each write: the users are the same, and the version octet says whether the rows are longer.
#[test]
fn cut_migration(rt: HostRuntime) -> Result<(), Fail> {
    let alloc = rt.alloc();
    let image = card_with_ann(alloc)?;
    let (_, bench) = migration(alloc, &image)?;
    assert_eq!(rt; bench.writes(), 2);
    for write in 0..bench.writes() {
        for fill in [0x00, 0xFF, 0x5A] {
            let Some(cut) = bench.image_within(alloc, write, fill)? else {
                panic!(rt; "{write} {fill}");
            };
            let (status, opened) = run_over(alloc, &["apdu"], PRESENT_TWO, &cut, no_faults(alloc))?;
            assert!(rt; status == Status::Done, "{write} {fill}");
            assert_eq!(rt; opened.given(), ANN_ALONE, "{write} {fill}");
            let (status, again) = migration(alloc, &cut)?;
            assert!(rt; status == Status::Done, "{write} {fill}");
            let is_even = cut.get(5).is_some_and(|version| *version % 2 == 0);
            let text: &[u8] = if is_even {
                b"migrated\n"
            } else {
                b"already migrated\n"
            };
            assert_eq!(rt; again.given(), text, "{write} {fill}");
        }
    }
    Ok(())
}

// Each call of a device fails in turn. Where a write does nothing is said, and the users are the same.
#[test]
fn failing_migration(rt: HostRuntime) -> Result<(), Fail> {
    let alloc = rt.alloc();
    let image = card_with_ann(alloc)?;
    for write in 0..2 {
        let mut plan = no_faults(alloc);
        plan.writes.push(write)?;
        plan.fill = 0x5A;
        let (status, failed) = run_over(alloc, &["migrate"], "", &image, plan)?;
        assert!(rt; status == Status::Eeprom, "{write}");
        assert_eq!(rt; failed.given(), b"".as_slice(), "{write}");
        let (status, opened) = run_over(
            alloc,
            &["apdu"],
            PRESENT_TWO,
            failed.image(),
            no_faults(alloc),
        )?;
        assert!(rt; status == Status::Done, "{write}");
        assert_eq!(rt; opened.given(), ANN_ALONE, "{write}");
    }
    let mut plan = no_faults(alloc);
    plan.gives.push(0)?;
    let (status, failed) = run_over(alloc, &["migrate"], "", &image, plan)?;
    assert!(rt; status == Status::WriteFault);
    assert!(rt; b"migrated\n".starts_with(failed.given()));
    let (status, again) = migration(alloc, failed.image())?;
    assert!(rt; status == Status::Done);
    assert_eq!(rt; again.given(), b"already migrated\n".as_slice());
    Ok(())
}
