// Users whose names have one tag are told apart.
use crate::find_name;
use eeprom::{Eeprom, FaultPlan, MemBench};
use record_store::{Side, SideReader, Store};
use scql_base::Name;
use std::test::Fail;

/// The users AXAX and B9AX, as they are written. Their names have one tag, and so has AXB9.
const FIRST: [u8; 17] = *b"\x01\x00\x00\x00\x01\x00\x00\x00\x01\x01\x03\x04AXAX\x00";

const SECOND: [u8; 17] = *b"\x01\x00\x00\x00\x02\x00\x00\x00\x01\x01\x03\x04B9AX\x00";

#[test]
fn names_of_one_tag_are_told_apart(rt: HostRuntime) -> Result<(), Fail> {
    let alloc = rt.alloc();
    let plan = FaultPlan {
        reads: Vec::new(alloc),
        writes: Vec::new(alloc),
        gives: Vec::new(alloc),
        fill: 0,
    };
    let mut bench = MemBench::new(alloc, vec![in alloc; 0u8; 1154]?, plan)?;
    let made = Store::format(&mut bench, 16, &FIRST, &SECOND);
    assert!(rt; made.is_ok());
    let second = Name::read(b"B9AX");
    let third = Name::read(b"AXB9");
    assert!(rt; second.is_some() && third.is_some());
    let opened = Store::open(alloc, &mut bench);
    assert!(rt; opened.is_ok());
    if let Ok(store) = opened {
        let mut reader = SideReader {
            store: &store,
            bench: &mut bench,
            side: Side::Committed,
        };
        if let Some(second) = second {
            let found = find_name(&mut reader, second);
            assert!(rt; matches!(&found, Ok(Some(found)) if found.slot == 1));
            if let Some(third) = third {
                let before = reader.bench.octets_read();
                let none = find_name(&mut reader, third);
                assert!(rt; matches!(&none, Ok(None)));
                assert_eq!(rt; reader.bench.octets_read().checked_sub(before), Some(64));
            }
        }
    }
    Ok(())
}
