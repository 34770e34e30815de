// The rows of dictionaries over records that are written by hand.
ghost use Rattle.std.specs.Prelude.{◌≤◌, length};

use crate::next_after;
use eeprom::{Eeprom, FaultPlan, MemBench};
use record_store::{Side, SideReader, Store};
use scql_base::{Name, Object, ObjectKind, Row, Subject};
use std::alloc::{AllocError, Global};
use std::test::Fail;

/// The user of stamp 1, the table T of stamp 3 with the columns A and B, and the grant of SELECT on it to PUBLIC of stamp 4, as they are written.
const OWNER: [u8; 18] = *b"\x01\x00\x00\x00\x01\x00\x00\x00\x01\x01\x03\x05OWNER\x00";

const TABLE: [u8; 16] = *b"\x02\x00\x00\x00\x03\x00\x00\x00\x01\x01T\x02\x01A\x01B";

const GRANT: [u8; 14] = *b"\x05\x00\x00\x00\x04\x00\x00\x00\x03\x00\x00\x00\x00\x01";

/// Their rows, each value behind its length.
const OWNER_ROW: &[u8] = b"\x05OWNER\x01\x01\x05OWNER";

const TABLE_ROW: &[u8] = b"\x01T\x01T\x05OWNER\x00\x03A,B";

const GRANT_ROW: &[u8] = b"\x01T\x06PUBLIC\x01\x01";

// A store of 16 cells with two records.
fn made(alloc: Global, first: &[u8], second: &[u8]) -> Result<MemBench, AllocError>
    requires first { 1 ≤ length first.now }
    requires first_short { length first.now ≤ 28 }
    requires second { 1 ≤ length second.now }
    requires second_short { length second.now ≤ 28 }
{
    let plan = FaultPlan {
        reads: Vec::new(alloc),
        writes: Vec::new(alloc),
        gives: Vec::new(alloc),
        fill: 0,
    };
    let mut bench = MemBench::new(alloc, vec![in alloc; 0u8; 1154]?, plan)?;
    // Where this fails the store doesn't open.
    let _made = Store::format(&mut bench, 16, first, second);
    Ok(bench)
}

// The first row of a dictionary of OWNER, and its stamp.
fn first_row<B: Eeprom>(alloc: Global, bench: &mut B, subject: Subject) -> Option<(u32, Row)> {
    let name = Name::read(b"D")?;
    let Ok(store) = Store::open(alloc, bench) else {
        return None;
    };
    let dictionary = Object {
        stamp: 5,
        name,
        owner: 1,
        kind: ObjectKind::Dictionary { subject },
    };
    let mut row = Row::new();
    let mut reader = SideReader {
        store: &store,
        bench,
        side: Side::Committed,
    };
    let next = next_after(&mut reader, &dictionary, 0, &mut row).ok()?;
    Some((next?, row))
}

#[test]
fn objects_and_users_are_told(rt: HostRuntime) -> Result<(), Fail> {
    let alloc = rt.alloc();
    let mut bench = made(alloc, &OWNER, &TABLE)?;
    let user = first_row(alloc, &mut bench, Subject::Users);
    assert!(rt; matches!(&user, Some((1, row)) if row.octets() == OWNER_ROW));
    let object = first_row(alloc, &mut bench, Subject::Objects);
    assert!(rt; matches!(&object, Some((3, row)) if row.octets() == TABLE_ROW));
    let grant = first_row(alloc, &mut bench, Subject::Grants);
    assert!(rt; grant.is_none());
    Ok(())
}

#[test]
fn grants_are_told(rt: HostRuntime) -> Result<(), Fail> {
    let alloc = rt.alloc();
    let mut bench = made(alloc, &TABLE, &GRANT)?;
    let grant = first_row(alloc, &mut bench, Subject::Grants);
    assert!(rt; matches!(&grant, Some((4, row)) if row.octets() == GRANT_ROW));
    Ok(())
}
