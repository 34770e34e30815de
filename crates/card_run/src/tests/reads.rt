// The reads of an opening.
use super::{lay, no_faults, run_over};
use program::Status;
use std::alloc::{AllocError, Global};
use std::test::Fail;

// How many cells the largest card has, and where the first of them is.
const CELLS: u16 = 2048;

const FIRST_CELL: usize = 12322;

// The image of such a card in which each cell has a record: the counter, OWNER, and basic users U0002 to U2047.
fn full_card(alloc: Global) -> Result<Vec<u8>, AllocError> {
    let mut image = vec![in alloc; 0u8; 143_394]?;
    let counter = [0xFF, 0xFF, 0x00, 0x05, 0x00, 0x00, 0x00, 0x08, 0x00];
    let owner = [
        0xFF, 0xFF, 0x00, 0x12, 0x01, 0x00, 0x00, 0x00, 0x01, 0x00, 0x00, 0x00, 0x01, 0x01, 0x03,
        0x05, 0x4F, 0x57, 0x4E, 0x45, 0x52, 0x00,
    ];
    lay(
        image.as_mut_slice(),
        &[
            (
                0,
                [0x53, 0x43, 0x51, 0x4C, 0x02, 0x00, 0x08, 0x00].as_slice(),
            ),
            (FIRST_CELL, counter.as_slice()),
            (FIRST_CELL + 32, owner.as_slice()),
        ],
    );
    for cell in 0..CELLS {
        let [high, low] = cell.to_be_bytes();
        let place = 32 + 2 * cell as usize;
        lay(image.as_mut_slice(), &[(place, [high, low].as_slice())]);
        if cell >= 2 {
            let user = user_cell(cell);
            let place = FIRST_CELL + 32 * cell as usize;
            lay(image.as_mut_slice(), &[(place, user.as_slice())]);
        }
    }
    Ok(image)
}

// The front of the cell of a basic user whose stamp is this number, and whose name has its digits.
fn user_cell(stamp: u16) -> [u8; 22] {
    let [high, low] = stamp.to_be_bytes();
    [
        0xFF,
        0xFF,
        0x00,
        0x12,
        0x01,
        0x00,
        0x00,
        high,
        low,
        0x00,
        0x00,
        0x00,
        0x01,
        0x03,
        0x03,
        0x05,
        b'U',
        digit(stamp / 1000),
        digit(stamp / 100),
        digit(stamp / 10),
        digit(stamp),
        0x00,
    ]
}

// The last digit of a number.
fn digit(number: u16) -> u8 {
    b'0' + (number % 10) as u8
}

// A full card is opened with one read of its front, one of its directory, and one of each cell.
#[test]
fn a_read_for_each_cell(rt: HostRuntime) -> Result<(), Fail> {
    let alloc = rt.alloc();
    let image = full_card(alloc)?;
    let (status, bench) = run_over(alloc, &["apdu"], "", &image, no_faults(alloc))?;
    assert!(rt; status == Status::Done);
    assert_eq!(rt; bench.octets_read(), 11 + 2 * 2048 + 32 * 2048);
    for (number, status) in [(2049, Status::Eeprom), (2050, Status::Done)] {
        let mut plan = no_faults(alloc);
        plan.reads.push(number)?;
        let (found, _) = run_over(alloc, &["apdu"], "", &image, plan)?;
        assert!(rt; found == status, "{number}");
    }
    Ok(())
}
