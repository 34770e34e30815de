// An index over two rows that are written by hand, and how it follows transactions.
ghost use Rattle.std.specs.Prelude.{◌≡◌, false, IfOk};

use crate::{RowIndex, RowPlace};
use eeprom::{FaultPlan, MemBench};
use record_store::{Side, Store};
use std::alloc::{AllocError, Global};
use std::test::Fail;

/// The row of stamp 5 in table 3, and that of stamp 4 in table 2, as they are written: a value of one octet, and one of none.
const LATER: [u8; 11] = [0x06, 0, 0, 0, 5, 0, 0, 0, 3, 1, 0x41];

const EARLIER: [u8; 10] = [0x06, 0, 0, 0, 4, 0, 0, 0, 2, 0];

/// The row of stamp 6 in table 2.
const LATEST: [u8; 10] = [0x06, 0, 0, 0, 6, 0, 0, 0, 2, 0];

// A store of 16 cells with two rows.
fn made(alloc: Global) -> Result<MemBench, AllocError> {
    let plan = FaultPlan {
        reads: Vec::new(alloc),
        writes: Vec::new(alloc),
        gives: Vec::new(alloc),
        fill: 0,
    };
    let mut bench = MemBench::new(alloc, vec![in alloc; 0u8; 1154]?, plan)?;
    // Where this fails the store doesn't open.
    let _made = Store::format(&mut bench, 16, &LATER, &EARLIER);
    Ok(bench)
}

// The index of these rows.
fn filled(alloc: Global, store: &Store) -> Result<RowIndex, AllocError>
    ensures idle { IfOk result (λ index. index.begun ≡ false) }
{
    let mut index = RowIndex::with_room(alloc, 16)?;
    index.fill(
        store,
        &[
            RowPlace {
                stamp: 4,
                table: 2,
                slot: 1,
            },
            RowPlace {
                stamp: 5,
                table: 3,
                slot: 0,
            },
        ],
    );
    Ok(index)
}

#[test]
fn an_index_is_filled(rt: HostRuntime) -> Result<(), Fail> {
    let alloc = rt.alloc();
    let mut bench = made(alloc)?;
    let opened = Store::open(alloc, &mut bench);
    assert!(rt; opened.is_ok());
    if let Ok(store) = opened {
        let index = filled(alloc, &store)?;
        assert!(rt; index.find(&store, Side::Committed, 3, 5, 0) == Some(0));
        assert!(rt; index.find(&store, Side::Working, 2, 4, 0) == Some(1));
        assert!(rt; index.find(&store, Side::Working, 3, 4, 0).is_none());
        let mut near = 0;
        assert!(rt; index.next_after(&store, Side::Committed, 2, 0, &mut near) == Some((4, 1)));
        assert!(rt;
            index
                .next_after(&store, Side::Committed, 2, 4, &mut near)
                .is_none()
        );
    }
    Ok(())
}

#[test]
fn an_index_follows_transactions(rt: HostRuntime) -> Result<(), Fail> {
    let alloc = rt.alloc();
    let mut bench = made(alloc)?;
    let opened = Store::open(alloc, &mut bench);
    assert!(rt; opened.is_ok());
    if let Ok(mut store) = opened {
        let mut index = filled(alloc, &store)?;
        store.begin();
        index.begin();
        let put = store.put(&mut bench, None, &LATEST);
        assert!(rt; put.is_ok());
        if let Ok(slot) = put {
            index.added(&store, 2, slot);
            let mut near = usize::MAX;
            assert!(rt; index.next_after(&store, Side::Working, 2, 0, &mut near) == Some((4, 1)));
            assert!(rt; near == 0);
            assert!(rt;
                index.next_after(&store, Side::Working, 2, 4, &mut near) == Some((6, slot))
            );
            assert!(rt; near == 1);
            assert!(rt; index.rows_of(&store, Side::Working, 2).len() == 2);
            assert!(rt; index.find(&store, Side::Committed, 2, 6, 0).is_none());
            index.removed(&store, 0);
            assert!(rt; index.find(&store, Side::Working, 3, 5, 2).is_none());
            store.rollback();
            index.rollback();
            assert!(rt; index.find(&store, Side::Working, 3, 5, 0) == Some(0));
            assert!(rt; index.find(&store, Side::Working, 2, 6, 1).is_none());
        }
    }
    Ok(())
}

#[test]
fn a_table_is_removed(rt: HostRuntime) -> Result<(), Fail> {
    let alloc = rt.alloc();
    let mut bench = made(alloc)?;
    let opened = Store::open(alloc, &mut bench);
    assert!(rt; opened.is_ok());
    if let Ok(store) = opened {
        let mut index = filled(alloc, &store)?;
        index.begin();
        index.table_removed(2);
        assert!(rt; index.rows_of(&store, Side::Working, 2).is_empty());
        assert!(rt; index.find(&store, Side::Working, 3, 5, 0) == Some(0));
        index.commit();
        assert!(rt; index.find(&store, Side::Committed, 2, 4, 0).is_none());
    }
    Ok(())
}
