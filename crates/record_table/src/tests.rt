// Users and the counter in the slots of a store.
ghost use Rattle.std.specs.Prelude.{◌<◌, ◌==◌, OnOk};
ghost use Rattle.record_store.specs.Held.{IsOver};
ghost use Rattle.record_table.specs.Changed.{IsBegunOver};

use crate::{Wanted, add, change, find_by, find_stamp, next_after, remove};
use catalog_codec::Counter;
use eeprom::{Eeprom, FaultPlan, MemBench};
use record_store::{Side, SideReader, Store, StoreRefusal, Tag};
use scql_base::User;
use std::alloc::{AllocError, Global};
use std::test::Fail;

/// The counter before stamp 2, and the user of stamp 1, as they are written.
const COUNTER: [u8; 5] = [0x00, 0, 0, 0, 2];

const OWNER: [u8; 18] = *b"\x01\x00\x00\x00\x01\x00\x00\x00\x01\x01\x03\x05OWNER\x00";

/// The users who were made by one.
struct MadeBy(u32);

impl Wanted<User> for MadeBy {
    ghost wants = { λ wanted user. user.owner == wanted.0 };

    fn is(&self, entry: &User) -> bool {
        entry.owner == self.0
    }

    fn tag(&self) -> Option<Tag> {
        None
    }
}

// A store of 16 cells with the counter and the user.
fn made(alloc: Global) -> Result<MemBench, AllocError> {
    let plan = FaultPlan {
        reads: Vec::new(alloc),
        writes: Vec::new(alloc),
        gives: Vec::new(alloc),
        fill: 0,
    };
    let mut bench = MemBench::new(alloc, vec![in alloc; 0u8; 1154]?, plan)?;
    // Where this fails the store doesn't open.
    let _made = Store::format(&mut bench, 16, &COUNTER, &OWNER);
    Ok(bench)
}

#[test]
fn records_are_found(rt: HostRuntime) -> Result<(), Fail> {
    let alloc = rt.alloc();
    let mut bench = made(alloc)?;
    let opened = Store::open(alloc, &mut bench);
    assert!(rt; opened.is_ok());
    if let Ok(store) = opened {
        let before = bench.octets_read();
        let mut reader = SideReader {
            store: &store,
            bench: &mut bench,
            side: Side::Committed,
        };
        let owner = find_stamp::<User, MemBench>(&mut reader, 1);
        assert!(rt; matches!(&owner, Ok(Some(found)) if found.slot == 1));
        assert_eq!(rt; reader.bench.octets_read().checked_sub(before), Some(32));
        let none = find_by::<User, MadeBy, MemBench>(&mut reader, &MadeBy(2));
        assert!(rt; matches!(&none, Ok(None)));
        let counter = next_after::<Counter, MemBench>(&mut reader, 1);
        assert!(rt; matches!(&counter, Ok(Some(found)) if found.slot == 0));
    }
    Ok(())
}

// The counter is changed, and another one is added and removed.
fn change_some<B: Eeprom>(store: &mut Store, bench: &mut B) -> Result<(), StoreRefusal>
    requires open { IsBegunOver store.old (B.chip bench.old) }
    requires slot { 0 < store.old.chains.cells }
    ensures { OnOk result (IsOver store.new (B.chip bench.new)) }
{
    change(store, bench, 0, &Counter { next: 3 })?;
    let slot = add(store, bench, &Counter { next: 9 })?;
    remove(store, slot);
    Ok(())
}

#[test]
fn records_are_changed(rt: HostRuntime) -> Result<(), Fail> {
    let alloc = rt.alloc();
    let mut bench = made(alloc)?;
    let opened = Store::open(alloc, &mut bench);
    assert!(rt; opened.is_ok());
    if let Ok(mut store) = opened {
        store.begin();
        assert_eq!(rt; store.cells(), 16);
        let changed = change_some(&mut store, &mut bench);
        assert!(rt; changed.is_ok());
        if let Ok(()) = changed {
            let mut reader = SideReader {
                store: &store,
                bench: &mut bench,
                side: Side::Working,
            };
            let next = next_after::<Counter, MemBench>(&mut reader, 2);
            assert!(rt; matches!(&next, Ok(Some(found)) if found.value.next == 3));
            let last = next_after::<Counter, MemBench>(&mut reader, 3);
            assert!(rt; matches!(&last, Ok(None)));
        }
    }
    Ok(())
}
