// The form `load`, over a bench in memory.
use super::{bench_of, no_faults, run_over, words_of};
use crate::run::run_card;
use eeprom::{MemBench, SteadyBench, SteadySource};
use person::Nobody;
use program::Status;
use std::alloc::{AllocError, Global};
use std::test::Fail;

// A fresh card of 64 cells.
fn card_of_64(alloc: Global) -> Result<MemBench, AllocError> {
    let words = words_of(alloc, &["new", "64"])?;
    let mut source = SteadySource::new(Vec::new(alloc), 1);
    let mut bench = bench_of(alloc, 5000, 0)?;
    let _ = run_card(alloc, &words, &mut source, &mut bench, &mut Nobody);
    Ok(bench)
}

// A load of four rows from the number 1, over an input that it doesn't read.
fn load(alloc: Global, image: &[u8]) -> Result<(Status, MemBench), AllocError> {
    run_over(alloc, &["load", "4", "1"], "00\n", image, no_faults(alloc))
}

#[test]
fn loaded_twice(rt: HostRuntime) -> Result<(), Fail> {
    let alloc = rt.alloc();
    let card = card_of_64(alloc)?;
    let (status, first) = load(alloc, card.image())?;
    assert_eq!(rt;
        first.given(),
        b"load rows 3 changed 1 deleted 1 refused 0\n".as_slice()
    );
    assert!(rt; status == Status::Done);
    let (status, second) = load(alloc, first.image())?;
    assert_eq!(rt;
        second.given(),
        b"load rows 6 changed 2 deleted 1 refused 1\n".as_slice()
    );
    assert!(rt; status == Status::Refused);
    Ok(())
}

// A load of 1,000 rows from the number 7 over a fresh card of 2,048 cells.
fn long_load(alloc: Global) -> Result<(Status, SteadyBench), AllocError> {
    let mut source = SteadySource::new(Vec::new(alloc), 1);
    let words = words_of(alloc, &["new", "2048"])?;
    let mut made = SteadyBench::new(alloc, vec![in alloc; 0u8; 143_394]?, 0, 0)?;
    let _ = run_card(alloc, &words, &mut source, &mut made, &mut Nobody);
    let words = words_of(alloc, &["load", "1000", "7"])?;
    let image = Vec::from_slice(alloc, made.image())?;
    let mut bench = SteadyBench::new(alloc, image, 0, 100)?;
    let status = run_card(alloc, &words, &mut source, &mut bench, &mut Nobody);
    Ok((status, bench))
}

/// PRESENT USER of OWNER, DECLARE CURSOR on the rows of LOAD, and OPEN; then NEXT too; then FETCH too: the lines, and their answers.
const READINGS: [(&str, &str); 3] = [
    (
        "0014008006054F574E4552\n0010008707044C4F41440100\n00100088\n",
        "9000\n9000\n9000\n",
    ),
    (
        "0014008006054F574E4552\n0010008707044C4F41440100\n00100088\n00100089\n",
        "9000\n9000\n9000\n9000\n",
    ),
    (
        "0014008006054F574E4552\n0010008707044C4F41440100\n00100088\n00100089\n0010008A00\n",
        "9000\n9000\n9000\n9000\n04303030320534343939399000\n",
    ),
];

// How many octets are read by a run over an image of such readings.
fn octets_read(alloc: Global, image: &[u8], reading: usize) -> Result<(bool, usize), AllocError> {
    let Some((input, output)) = READINGS.get(reading) else {
        return Ok((false, 0));
    };
    let (status, bench) = run_over(alloc, &["apdu"], input, image, no_faults(alloc))?;
    let answered = status == Status::Done && bench.given() == output.as_bytes();
    Ok((answered, bench.octets_read()))
}

// The line is the same on two fresh cards: 771 rows are left of 1,000, and 229 were deleted. On such a card NEXT reads at most the cells
// of one row and those of three records of the catalogue and two more cells; and FETCH at least the octets of its row.
#[test]
fn long_loads(rt: HostRuntime) -> Result<(), Fail> {
    let alloc = rt.alloc();
    let (status, first) = long_load(alloc)?;
    assert!(rt; status == Status::Done);
    assert_eq!(rt;
        first.given(),
        b"load rows 771 changed 175 deleted 229 refused 0\n".as_slice()
    );
    let (status, second) = long_load(alloc)?;
    assert!(rt; status == Status::Done);
    assert_eq!(rt; second.given(), first.given());
    assert_eq!(rt; second.image(), first.image());
    let mut read = 0;
    for (reading, least, most) in [(0, 0, 143_394), (1, 0, 896), (2, 11, 896)] {
        let (answered, octets) = octets_read(alloc, first.image(), reading)?;
        assert!(rt; answered, "{reading}");
        let more = octets.saturating_sub(read);
        assert!(rt; least <= more && more <= most, "{reading}: {more}");
        read = octets;
    }
    Ok(())
}
