// The form `term`, over a bench in memory.
use super::{Failing, fresh_card, no_faults, run_over};
use crate::run::run_card;
use eeprom::{MemBench, MemSource};
use person::Nobody;
use program::Status;
use std::alloc::{AllocError, Global};
use std::test::Fail;

/// Ten statements, of which the last reads what the others made.
const SESSION: &str = "PRESENT OWNER
CREATE TABLE T (A, B)
INSERT INTO T VALUES ('1', 'x')
INSERT INTO T VALUES ('2', 'y')
BEGIN
UPDATE T SET B = 'z' WHERE A = '2'
DELETE FROM T WHERE A = '1'
COMMIT
DROP TABLE U
SELECT * FROM T
";

const SESSION_TEXT: &str = "ok
ok
ok
ok
ok
rows 1
rows 1
ok
refused 6A88
'2', 'z'
rows 1
";

/// What tells how far the session came.
const PROBE: &str = "PRESENT OWNER
SELECT * FROM T
";

/// What is told, by how many of the session's changes are there: no table, an empty one, one row, two, and those of the transaction.
const STATES: [&str; 5] = [
    "ok\nrefused 6A88\n",
    "ok\nrows 0\n",
    "ok\n'1', 'x'\nrows 1\n",
    "ok\n'1', 'x'\n'2', 'y'\nrows 2\n",
    "ok\n'2', 'z'\nrows 1\n",
];

/// How many changes are there at least where so many octets of the session's text had gone out: each comes before its line's text.
const HEARD: [(usize, usize); 4] = [(6, 1), (9, 2), (12, 3), (32, 4)];

// The changes that have to be there where so many octets had gone out.
fn heard_changes(given: usize) -> usize {
    HEARD
        .iter()
        .filter(|(octets, _)| *octets <= given)
        .map(|(_, changes)| *changes)
        .max()
        .unwrap_or(0)
}

// What the card of an image tells.
fn told_by(alloc: Global, image: &[u8]) -> Result<Vec<u8>, AllocError> {
    let (_, bench) = run_over(alloc, &["term"], PROBE, image, no_faults(alloc))?;
    Vec::from_slice(alloc, bench.given())
}

// Whether a card tells of the changes that were heard where so many octets had gone out, and of at most one more.
fn tells_what_was_heard(alloc: Global, image: &[u8], given: usize) -> Result<bool, AllocError> {
    let told = told_by(alloc, image)?;
    Ok(
        STATES
            .iter()
            .skip(heard_changes(given))
            .take(2)
            .any(|state| state.as_bytes() == told.as_slice()),
    )
}

#[test]
fn session(rt: HostRuntime) -> Result<(), Fail> {
    let alloc = rt.alloc();
    let image = fresh_card(alloc)?;
    let (status, bench) = run_over(alloc, &["term"], SESSION, &image, no_faults(alloc))?;
    assert!(rt; status == Status::Refused);
    assert_eq!(rt; bench.given(), SESSION_TEXT.as_bytes());
    let (status, bench) = run_over(alloc, &["term"], PROBE, bench.image(), no_faults(alloc))?;
    assert!(rt; status == Status::Done);
    assert_eq!(rt; bench.given(), b"ok\n'2', 'z'\nrows 1\n".as_slice());
    Ok(())
}

// Power is lost within each write of the session: what was heard is there.
#[test]
fn cut_in_a_session(rt: HostRuntime) -> Result<(), Fail> {
    let alloc = rt.alloc();
    let image = fresh_card(alloc)?;
    let (_, bench) = run_over(alloc, &["term"], SESSION, &image, no_faults(alloc))?;
    for write in 0..bench.writes() {
        for fill in [0x00, 0xFF, 0x5A] {
            let Some(cut) = bench.image_within(alloc, write, fill)? else {
                panic!(rt; "{write} {fill}");
            };
            let Some(given) = bench.given_at(write) else {
                panic!(rt; "{write}");
            };
            assert!(rt; tells_what_was_heard(alloc, &cut, given)?, "{write} {fill}");
        }
    }
    Ok(())
}

// The status of the session in which a device fails at its call of that number, and the bench after it.
fn session_failing(
    alloc: Global,
    failing: Failing,
    number: usize,
) -> Result<(Status, MemBench), AllocError> {
    let words = super::words_of(alloc, &["term"])?;
    let mut plan = no_faults(alloc);
    plan.fill = 0x5A;
    let mut fails = Vec::new(alloc);
    match failing {
        Failing::Read => plan.reads.push(number)?,
        Failing::Write => plan.writes.push(number)?,
        Failing::Give => plan.gives.push(number)?,
        Failing::Source => fails.push(number)?,
    }
    let mut source = MemSource::new(Vec::from_slice(alloc, SESSION.as_bytes())?, 30, fails);
    let mut bench = MemBench::new(alloc, fresh_card(alloc)?, plan)?;
    let status = run_card(alloc, &words, &mut source, &mut bench, &mut Nobody);
    Ok((status, bench))
}

// Each call of a device fails in turn: the status is its own, the output is the start of the session's text, and the card
// has what was heard. Where the outlet fails, all changes of the line that it cut short are there.
#[test]
fn failing_sessions(rt: HostRuntime) -> Result<(), Fail> {
    let alloc = rt.alloc();
    for (failing, status) in [
        (Failing::Read, Status::Eeprom),
        (Failing::Write, Status::Eeprom),
        (Failing::Give, Status::WriteFault),
        (Failing::Source, Status::ReadFault),
    ] {
        let mut ended = false;
        for number in 0..1000 {
            let (found, bench) = session_failing(alloc, failing, number)?;
            if found == Status::Refused {
                ended = true;
                break;
            }
            assert!(rt; found == status, "{failing:?} {number}");
            let given = bench.given();
            assert!(rt;
                SESSION_TEXT.as_bytes().starts_with(given),
                "{failing:?} {number}"
            );
            assert!(rt;
                tells_what_was_heard(alloc, bench.image(), given.len())?,
                "{failing:?} {number}"
            );
        }
        assert!(rt; ended, "{failing:?}");
    }
    Ok(())
}
