// A store that is opened as it was made, and one whose neighbouring slots are one write.
ghost use Rattle.std.specs.Prelude.{◌≡◌, false};
ghost use Rattle.eeprom.specs.MemBench.{chip_of};
ghost use Rattle.record_store.specs.Held.{IsOver};

use crate::{RecordOctets, Side, Store, StoreRefusal};
use eeprom::{FaultPlan, MemBench};
use std::alloc::{AllocError, Global};
use std::test::Fail;

// Room for a store of 16 cells.
fn bench_of_16(alloc: Global) -> Result<MemBench, AllocError> {
    let plan = FaultPlan {
        reads: Vec::new(alloc),
        writes: Vec::new(alloc),
        gives: Vec::new(alloc),
        fill: 0,
    };
    MemBench::new(alloc, vec![in alloc; 0u8; 1154]?, plan)
}

#[test]
fn a_made_store_opens(rt: HostRuntime) -> Result<(), Fail> {
    let alloc = rt.alloc();
    let mut bench = bench_of_16(alloc)?;
    let made = Store::format(&mut bench, 16, b"first", b"second");
    assert!(rt; made.is_ok());
    let opened = Store::open(alloc, &mut bench);
    assert!(rt; opened.is_ok());
    if let Ok(store) = opened {
        let mut octets = RecordOctets::new();
        let first = store.get(&mut bench, Side::Committed, 0, &mut octets);
        assert!(rt; first == Ok(true));
        assert_eq!(rt; octets.as_slice(), b"first".as_slice());
        let second = store.get(&mut bench, Side::Committed, 1, &mut octets);
        assert!(rt; second == Ok(true));
        assert_eq!(rt; octets.as_slice(), b"second".as_slice());
        let third = store.get(&mut bench, Side::Committed, 2, &mut octets);
        assert!(rt; third == Ok(false));
        assert_eq!(rt; bench.octets_read(), 4 + 11 + 32 + 64 + 64);
    }
    Ok(())
}

// Changes two neighbouring slots in one transaction, the later one first.
fn change_neighbours(store: &mut Store, bench: &mut MemBench) -> Result<(), StoreRefusal>
    requires idle { store.old.begun ≡ false }
    requires over { IsOver store.old (chip_of bench.old) }
{
    store.begin();
    store.put(bench, Some(3), b"later")?;
    store.put(bench, Some(2), b"earlier")?;
    store.commit(bench)?;
    Ok(())
}

// What is written are two chains, the journal, the gate, one run of the directory, and the gate.
#[test]
fn neighbours_are_one_write(rt: HostRuntime) -> Result<(), Fail> {
    let alloc = rt.alloc();
    let mut bench = bench_of_16(alloc)?;
    let made = Store::format(&mut bench, 16, b"first", b"second");
    assert!(rt; made.is_ok());
    let opened = Store::open(alloc, &mut bench);
    assert!(rt; opened.is_ok());
    if let Ok(mut store) = opened {
        let before = bench.writes();
        let changed = change_neighbours(&mut store, &mut bench);
        assert!(rt; changed == Ok(()));
        assert_eq!(rt; bench.writes().wrapping_sub(before), 6);
        assert!(rt; bench.image().get(36..40) == Some([0u8, 3, 0, 2].as_slice()));
    }
    Ok(())
}
