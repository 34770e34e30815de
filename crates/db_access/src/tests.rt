// Users are presented and verified over a card's image in memory.
ghost use Rattle.std.specs.Prelude.{IsTrue, OnOk, false};
ghost use Rattle.record_store.specs.Held.{IsOver};
ghost use Rattle.record_table.specs.AtRest.{IsIdleOver};

use crate::{Presented, present, verify};
use eeprom::{Eeprom, FaultPlan, MemBench};
use record_store::{Side, SideReader, Store, StoreRefusal};
use record_table::add;
use scql_base::{Name, Octets, Profile, User};
use std::alloc::{AllocError, Global};
use std::test::Fail;
use user_table::find_stamp;

/// The counter before stamp 2, and the user of stamp 1, as they are written.
const COUNTER: [u8; 5] = [0x00, 0, 0, 0, 2];

const OWNER: [u8; 18] = *b"\x01\x00\x00\x00\x01\x00\x00\x00\x01\x01\x03\x05OWNER\x00";

// An EEPROM with an image, where nothing fails.
fn bench_of(alloc: Global, image: Vec<u8>) -> Result<MemBench, AllocError> {
    let plan = FaultPlan {
        reads: Vec::new(alloc),
        writes: Vec::new(alloc),
        gives: Vec::new(alloc),
        fill: 0,
    };
    MemBench::new(alloc, image, plan)
}

// A store of 16 cells with the counter and the user.
fn made(alloc: Global) -> Result<MemBench, AllocError> {
    let mut bench = bench_of(alloc, vec![in alloc; 0u8; 1154]?)?;
    // Where this fails the store doesn't open.
    let _made = Store::format(&mut bench, 16, &COUNTER, &OWNER);
    Ok(bench)
}

// Begins a transaction, and puts a user into an empty slot.
fn add_user<B: Eeprom>(store: &mut Store, bench: &mut B, user: &User) -> Result<u16, StoreRefusal>
    requires rests { IsIdleOver store.old (B.chip bench.old) }
    ensures begun { OnOk result (IsTrue store.new.begun) }
    ensures over { OnOk result (IsOver store.new (B.chip bench.new)) }
{
    store.begin();
    add(store, bench, user)
}

// ANNA, a user of stamp 2 with profile 03 and a secret, whom OWNER made.
fn anna() -> Option<User> {
    Some(User {
        stamp: 2,
        name: Name::read(b"ANNA")?,
        profile: Profile::Dbbu,
        owner: 1,
        secret: Octets::of(b"1234")?,
        tries: User::ALL_TRIES,
    })
}

// The image with ANNA beside OWNER, committed.
fn with_anna(alloc: Global) -> Result<MemBench, AllocError> {
    let mut bench = made(alloc)?;
    if let (Ok(mut store), Some(anna)) = (Store::open(alloc, &mut bench), anna()) {
        if let Ok(_slot) = add_user(&mut store, &mut bench, &anna) {
            // Where this fails there is no such user.
            let _committed = store.commit(&mut bench);
        }
    }
    Ok(bench)
}

// Who has a name in that image.
fn who(alloc: Global, name: &[u8]) -> Result<Option<Presented>, AllocError> {
    let mut bench = with_anna(alloc)?;
    let (Ok(store), Some(name)) = (Store::open(alloc, &mut bench), Name::read(name)) else {
        return Ok(None);
    };
    Ok(present(&store, &mut bench, name).ok())
}

#[test]
fn users_are_presented(rt: HostRuntime) -> Result<(), Fail> {
    let alloc = rt.alloc();
    let anna = who(alloc, b"ANNA")?;
    assert!(rt;
        anna == Some(Presented::User {
            stamp: 2,
            proved: false
        })
    );
    let owner = who(alloc, Name::OWNER)?;
    assert!(rt;
        owner
            == Some(Presented::User {
                stamp: 1,
                proved: true
            })
    );
    let everybody = who(alloc, Name::PUBLIC)?;
    assert!(rt; everybody == Some(Presented::Public));
    let nobody = who(alloc, b"BERTA")?;
    assert!(rt; nobody == Some(Presented::Unknown));
    Ok(())
}

// The word that VERIFY answers to a secret of ANNA's, where the EEPROM doesn't fail.
fn word_to(alloc: Global, bench: &mut MemBench, secret: &[u8]) -> Option<u16> {
    let mut store = Store::open(alloc, bench).ok()?;
    let word = verify(&mut store, bench, 2, secret).ok()?;
    Some(word.word)
}

#[test]
fn secrets_are_compared(rt: HostRuntime) -> Result<(), Fail> {
    let alloc = rt.alloc();
    let mut bench = with_anna(alloc)?;
    assert!(rt; word_to(alloc, &mut bench, b"0000") == Some(0x63C2));
    assert!(rt; word_to(alloc, &mut bench, b"123") == Some(0x63C1));
    assert!(rt; word_to(alloc, &mut bench, b"1234") == Some(0x9000));
    assert!(rt; word_to(alloc, &mut bench, b"12345") == Some(0x63C2));
    assert!(rt; word_to(alloc, &mut bench, b"1235") == Some(0x63C1));
    assert!(rt; word_to(alloc, &mut bench, b"") == Some(0x63C0));
    assert!(rt; word_to(alloc, &mut bench, b"1234") == Some(0x6983));
    Ok(())
}

// What a write leaves in its range where it is cut.
const FILLS: [u8; 3] = [0x00, 0xFF, 0x5A];

// How many tries ANNA has in an image that opens.
fn tries_in(alloc: Global, image: Vec<u8>) -> Result<Option<u8>, AllocError> {
    let mut bench = bench_of(alloc, image)?;
    let Ok(store) = Store::open(alloc, &mut bench) else {
        return Ok(None);
    };
    let mut reader = SideReader {
        store: &store,
        bench: &mut bench,
        side: Side::Committed,
    };
    match find_stamp(&mut reader, 2) {
        Ok(Some(anna)) => Ok(Some(anna.value.tries)),
        _ => Ok(None),
    }
}

// How many of the cuts in the writes of VERIFY leave so many tries, of all of them.
fn cuts_that_leave(alloc: Global, secret: &[u8], tries: u8) -> Result<(usize, usize), AllocError> {
    let made = with_anna(alloc)?;
    let mut bench = bench_of(alloc, Vec::from_slice(alloc, made.image())?)?;
    let _word = word_to(alloc, &mut bench, secret);
    let mut found = 0usize;
    let mut all = 0usize;
    for write in 0..bench.writes() {
        for fill in FILLS {
            let left = match bench.image_within(alloc, write, fill)? {
                Some(image) => tries_in(alloc, image)?,
                None => None,
            };
            all = all.saturating_add(1);
            if left == Some(tries) {
                found = found.saturating_add(1);
            }
        }
    }
    Ok((found, all))
}

#[test]
fn a_cut_gives_no_try_back(rt: HostRuntime) -> Result<(), Fail> {
    let alloc = rt.alloc();
    for secret in [*b"0000", *b"1234"] {
        let (before, all) = cuts_that_leave(alloc, &secret, 3)?;
        let (lowered, _) = cuts_that_leave(alloc, &secret, 2)?;
        assert!(rt; lowered > 0);
        assert!(rt; before.saturating_add(lowered) == all);
    }
    Ok(())
}
