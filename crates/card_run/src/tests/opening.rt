// The form `apdu`: cards that are there, and images that are none.
use super::{WITH_ANN, fresh_card, is_open, lay, no_faults, run_over, words_of};
use crate::run::run_card;
use eeprom::{SteadyBench, SteadySource};
use person::Nobody;
use program::Status;
use std::test::Fail;

const PRESENT_OWNER: &str = "0014008006054F574E4552\n";

const OWNER_MAKES_ANN: &str = "0014008006054F574E4552\n001400810703414E4E010300\n";

const OWNER_MAKES_BOB: &str = "0014008006054F574E4552\n001400810703424F42010300\n";

const PRESENT_ANN: &str = "001400800403414E4E\n";

// What an opening finds in an image.
#[derive(Clone, Copy, PartialEq, Eq)]
enum Finds {
    NotACard,
    FreshCard,
}

// What is different in the image of a fresh card of 16 cells, and what an opening finds in it then.
const CHANGES: [(&str, &[(usize, &[u8])], Finds); 28] = [
    ("another first octet", &[(0, &[0x52])], Finds::NotACard),
    ("another format", &[(4, &[0x01])], Finds::NotACard),
    ("an odd version", &[(5, &[0x01])], Finds::NotACard),
    ("15 cells", &[(6, &[0x00, 0x0F])], Finds::NotACard),
    ("17 cells", &[(6, &[0x00, 0x11])], Finds::NotACard),
    ("an open gate", &[(8, &[0x01])], Finds::FreshCard),
    (
        "an open gate, and a journal of 17 entries",
        &[(8, &[0x01]), (64, &[0x00, 0x11])],
        Finds::NotACard,
    ),
    (
        "an open gate, and an entry with a cell out of range",
        &[(8, &[0x01]), (64, &[0x00, 0x01, 0x00, 0x02, 0x00, 0x20])],
        Finds::NotACard,
    ),
    (
        "a cell of two records",
        &[(34, &[0x00, 0x00])],
        Finds::NotACard,
    ),
    ("a ring", &[(130, &[0x00, 0x00])], Finds::NotACard),
    (
        "a chain out of range",
        &[(130, &[0x00, 0x20])],
        Finds::NotACard,
    ),
    (
        "a record of no octets",
        &[(132, &[0x00, 0x00])],
        Finds::NotACard,
    ),
    (
        "a record of 513 octets in one cell",
        &[(132, &[0x02, 0x01])],
        Finds::NotACard,
    ),
    ("a record of no kind", &[(134, &[0x07])], Finds::NotACard),
    (
        "a next stamp that is given out",
        &[(138, &[0x01])],
        Finds::NotACard,
    ),
    (
        "an OWNER of another profile",
        &[(175, &[0x02])],
        Finds::NotACard,
    ),
    (
        "two tries of a user without a secret",
        &[(176, &[0x02])],
        Finds::NotACard,
    ),
    (
        "an OWNER of another name",
        &[(178, &[0x50])],
        Finds::NotACard,
    ),
    (
        "a record in cells without octets",
        &[(36, &[0x00, 0x02])],
        Finds::NotACard,
    ),
    (
        "a place that isn't looked at",
        &[(9, &[0xFF])],
        Finds::FreshCard,
    ),
    ("a cell that is free", &[(226, &[0x55])], Finds::FreshCard),
    // So far the table of damages, and here what else tells readers apart.
    (
        "a chain that begins out of range",
        &[(34, &[0x00, 0x20])],
        Finds::NotACard,
    ),
    (
        "an open gate, and an entry with a slot out of range",
        &[(8, &[0x01]), (64, &[0x00, 0x01, 0x00, 0x10, 0x00, 0x02])],
        Finds::NotACard,
    ),
    (
        "a closed gate, and a journal out of range",
        &[(64, &[0xFF, 0xFF])],
        Finds::FreshCard,
    ),
    ("another even gate", &[(8, &[0x02])], Finds::FreshCard),
    ("another odd gate", &[(8, &[0xFF])], Finds::FreshCard),
    (
        "an open gate, and both chains in the journal alone",
        &[
            (8, &[0x01]),
            (32, &[0xFF, 0xFF, 0x00, 0x02]),
            (
                64,
                &[0x00, 0x02, 0x00, 0x00, 0x00, 0x00, 0x00, 0x01, 0x00, 0x01],
            ),
        ],
        Finds::FreshCard,
    ),
    (
        "a migrated card",
        &[(5, &[0x01]), (9, &[0x03, 0xFC])],
        Finds::FreshCard,
    ),
];

#[test]
fn card_that_is_there(rt: HostRuntime) -> Result<(), Fail> {
    let alloc = rt.alloc();
    let (_, made) = run_over(
        alloc,
        &["new", "64"],
        PRESENT_OWNER,
        &[0; 5000],
        no_faults(alloc),
    )?;
    assert_eq!(rt; made.given(), b"9000\n".as_slice());
    let words = words_of(alloc, &["apdu"])?;
    let mut source = SteadySource::new(Vec::new(alloc), 1);
    let mut bench = SteadyBench::new(alloc, Vec::from_slice(alloc, made.image())?, 100, 100)?;
    let status = run_card(alloc, &words, &mut source, &mut bench, &mut Nobody);
    assert!(rt; status == Status::Done);
    assert_eq!(rt; bench.given(), b"".as_slice());
    assert_eq!(rt; bench.image(), made.image(), "the image stays");
    Ok(())
}

#[test]
fn two_runs(rt: HostRuntime) -> Result<(), Fail> {
    let alloc = rt.alloc();
    let (_, first) = run_over(
        alloc,
        &["new", "64"],
        OWNER_MAKES_ANN,
        &[0; 5000],
        no_faults(alloc),
    )?;
    assert_eq!(rt; first.given(), b"9000\n9000\n".as_slice());
    let (status, second) = run_over(
        alloc,
        &["apdu"],
        OWNER_MAKES_ANN,
        first.image(),
        no_faults(alloc),
    )?;
    assert!(rt; status == Status::Done);
    assert_eq!(rt; second.given(), b"9000\n6A89\n".as_slice());
    assert_eq!(rt; second.image(), first.image(), "ANN was there");
    Ok(())
}

// What is refused here stays as it was: its gate is closed, or its journal out of range. What opens has its gate closed afterwards,
// and is else as it was where the gate was closed before.
#[test]
fn changed_images(rt: HostRuntime) -> Result<(), Fail> {
    let alloc = rt.alloc();
    for (what, changes, finds) in CHANGES {
        let mut image = fresh_card(alloc)?;
        lay(image.as_mut_slice(), changes);
        let (status, bench) = run_over(alloc, &["apdu"], PRESENT_OWNER, &image, no_faults(alloc))?;
        let is_fresh = finds == Finds::FreshCard;
        if is_fresh {
            assert!(rt; status == Status::Done, "{what}");
            assert_eq!(rt; bench.given(), b"9000\n".as_slice(), "{what}");
            assert!(rt; !is_open(bench.image()), "{what}");
        } else {
            assert!(rt; status == Status::NotACard, "{what}");
            assert_eq!(rt; bench.given(), b"".as_slice(), "{what}");
        }
        if !is_fresh || !is_open(&image) {
            assert_eq!(rt; bench.image(), image.as_slice(), "{what}");
        }
    }
    Ok(())
}

#[test]
fn short_images(rt: HostRuntime) -> Result<(), Fail> {
    let alloc = rt.alloc();
    for size in [0, 8, 10, 34, 1153] {
        let mut image = fresh_card(alloc)?;
        image.truncate(size);
        for word in ["apdu", "migrate"] {
            let (status, bench) = run_over(
                alloc,
                &[word],
                PRESENT_OWNER,
                &image,
                no_faults(alloc),
            )?;
            assert!(rt; status == Status::NotACard, "{word}: {size} octets");
            assert_eq!(rt; bench.image(), image.as_slice(), "{word}: {size} octets");
        }
    }
    Ok(())
}

// A card with ANN whose directory isn't written yet: the journal behind its open gate has what ANN's making left of it.
// It answers as the one with a closed gate, and its image is the same afterwards.
#[test]
fn open_gate(rt: HostRuntime) -> Result<(), Fail> {
    let alloc = rt.alloc();
    let mut closed = fresh_card(alloc)?;
    lay(closed.as_mut_slice(), &WITH_ANN);
    let mut open = Vec::from_slice(alloc, &closed)?;
    lay(
        open.as_mut_slice(),
        &[
            (8, [0x01].as_slice()),
            (32, [0x00, 0x00, 0x00, 0x01, 0xFF, 0xFF].as_slice()),
        ],
    );
    for input in ["", PRESENT_ANN, OWNER_MAKES_ANN, OWNER_MAKES_BOB] {
        let (status, over_closed) = run_over(alloc, &["apdu"], input, &closed, no_faults(alloc))?;
        assert!(rt; status == Status::Done, "{input}");
        let (status, over_open) = run_over(alloc, &["apdu"], input, &open, no_faults(alloc))?;
        assert!(rt; status == Status::Done, "{input}");
        assert_eq!(rt; over_open.given(), over_closed.given(), "{input}");
        assert_eq!(rt; over_open.image(), over_closed.image(), "{input}");
        assert!(rt; !is_open(over_open.image()), "{input}");
    }
    Ok(())
}

// The first write fails: ANN is there afterwards or isn't, and the card opens.
#[test]
fn failing_write(rt: HostRuntime) -> Result<(), Fail> {
    let alloc = rt.alloc();
    let (_, made) = run_over(
        alloc,
        &["new", "64"],
        PRESENT_OWNER,
        &[0; 5000],
        no_faults(alloc),
    )?;
    for fill in [0x00, 0xFF, 0x5A] {
        let mut plan = no_faults(alloc);
        plan.writes.push(0)?;
        plan.fill = fill;
        let (status, failed) = run_over(alloc, &["apdu"], OWNER_MAKES_ANN, made.image(), plan)?;
        assert!(rt; status == Status::Eeprom);
        assert_eq!(rt; failed.given(), b"9000\n6581\n".as_slice());
        let (status, opened) = run_over(
            alloc,
            &["apdu"],
            PRESENT_ANN,
            failed.image(),
            no_faults(alloc),
        )?;
        assert!(rt; status == Status::Done);
        let answers = [b"9000\n".as_slice(), b"6A88\n".as_slice()];
        assert!(rt; answers.contains(&opened.given()));
    }
    Ok(())
}
