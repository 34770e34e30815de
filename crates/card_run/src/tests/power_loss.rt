// Power is lost within each write of a run, and of each opening after that: the image opens, and has each change that was answered.
use super::{WITH_ANN, fresh_card, is_open, lay, no_faults, run_over};
use eeprom::MemBench;
use program::Status;
use std::alloc::{AllocError, Global};
use std::test::Fail;

/// A run whose first line presents OWNER, and each further line of which changes the card.
#[derive(Clone, Copy)]
struct Story {
    lines: &'static str,
    /// What asks for the state of the card.
    probe: &'static str,
    /// What is answered to that, by how many of the changes are there.
    answers: &'static [&'static str],
}

/// OWNER makes ANN, BOB and EVE.
const THREE_USERS: Story = Story {
    lines: "0014008006054F574E4552
001400810703414E4E010300
001400810703424F42010300
001400810703455645010300
",
    probe: "001400800403414E4E
001400800403424F42
001400800403455645
",
    answers: &[
        "6A88\n6A88\n6A88\n",
        "9000\n6A88\n6A88\n",
        "9000\n9000\n6A88\n",
        "9000\n9000\n9000\n",
    ],
};

/// For each of the three its cell, the counter's, the journal, the gate, two numbers of the directory that aren't neighbours, and the gate.
const WRITES_FOR_THREE: usize = 3 * 7;

/// OWNER makes a table, inserts two rows of three cells each, and drops it.
const TABLE_WITH_ROWS: Story = Story {
    lines: "0014008006054F574E4552
0010008006015401410142
0010008C440154403030303030303030303030303030303030303030303030303030303030303030303030303030303030303030303030303030303030303030303030303030303000
0010008C440154403131313131313131313131313131313131313131313131313131313131313131313131313131313131313131313131313131313131313131313131313131313100
00100083020154
",
    // OWNER inserts rows of three cells as long as there is room. Of 16 cells the counter, OWNER and the table have one each.
    probe: "0014008006054F574E4552
0010008C440154403232323232323232323232323232323232323232323232323232323232323232323232323232323232323232323232323232323232323232323232323232323200
0010008C440154403232323232323232323232323232323232323232323232323232323232323232323232323232323232323232323232323232323232323232323232323232323200
0010008C440154403232323232323232323232323232323232323232323232323232323232323232323232323232323232323232323232323232323232323232323232323232323200
0010008C440154403232323232323232323232323232323232323232323232323232323232323232323232323232323232323232323232323232323232323232323232323232323200
0010008C440154403232323232323232323232323232323232323232323232323232323232323232323232323232323232323232323232323232323232323232323232323232323200
",
    answers: &[
        "9000\n6A88\n6A88\n6A88\n6A88\n6A88\n",
        "9000\n9000\n9000\n9000\n9000\n6A84\n",
        "9000\n9000\n9000\n9000\n6A84\n6A84\n",
        "9000\n9000\n9000\n6A84\n6A84\n6A84\n",
        "9000\n6A88\n6A88\n6A88\n6A88\n6A88\n",
    ],
};

/// OWNER drops a table.
const DROPPED_TABLE: Story = Story {
    lines: "0014008006054F574E4552
00100083020154
",
    probe: "0014008006054F574E4552
0010008C0401540178
",
    answers: &["9000\n9000\n", "9000\n6A88\n"],
};

/// What power is lost with: each octet in the range of the write has this value.
pub(super) const FILLS: [u8; 3] = [0x00, 0xFF, 0x5A];

// What the card of an image answers to a probe in this form, and the bench of the opening before that. The image is opened twice: the first
// opening writes only where the gate is open, and the second nothing. It is None where the image is no card; and nothing is
// answered where a run ended in another way, or wrote what it needn't.
pub(super) fn left_in(
    alloc: Global,
    form: &str,
    image: &[u8],
    probe: &str,
) -> Result<(Option<Vec<u8>>, MemBench), AllocError> {
    let (first, opened) = run_over(alloc, &["apdu"], "", image, no_faults(alloc))?;
    if first == Status::NotACard {
        return Ok((None, opened));
    }
    let (_, again) = run_over(alloc, &["apdu"], "", opened.image(), no_faults(alloc))?;
    let is_quiet = is_open(image) || opened.writes() == 0;
    let is_kept = !is_open(opened.image())
        && again.writes() == 0
        && again.image() == opened.image();
    let (last, probed) = run_over(alloc, &[form], probe, opened.image(), no_faults(alloc))?;
    let is_answered = first == Status::Done && (last == Status::Done || last == Status::Refused);
    let mut answers = Vec::new(alloc);
    if is_answered && is_quiet && is_kept {
        answers = Vec::from_slice(alloc, probed.given())?;
    }
    Ok((Some(answers), opened))
}

// The same, where each image that a power loss leaves in the writes of the opening is left so too.
pub(super) fn look_at(
    alloc: Global,
    form: &str,
    image: &[u8],
    probe: &str,
) -> Result<Option<Vec<u8>>, AllocError> {
    let (left, opened) = left_in(alloc, form, image, probe)?;
    for write in 0..opened.writes() {
        for fill in FILLS {
            let Some(cut) = opened.image_within(alloc, write, fill)? else {
                return Ok(Some(Vec::new(alloc)));
            };
            let (found, _) = left_in(alloc, form, &cut, probe)?;
            if !is_same(&found, &left) {
                return Ok(Some(Vec::new(alloc)));
            }
        }
    }
    Ok(left)
}

fn is_same(first: &Option<Vec<u8>>, second: &Option<Vec<u8>>) -> bool {
    match (first, second) {
        (Some(first), Some(second)) => first.as_slice() == second.as_slice(),
        (None, None) => true,
        _ => false,
    }
}

// Whether that may be left where so many octets had gone out, of five an answer: the first answer is OWNER's, and each further
// one that of a change. Where a card is made, what the card before answered is told.
fn may_be_left(story: &Story, left: &Option<Vec<u8>>, given: usize, before: Option<&str>) -> bool {
    let Some(left) = left else {
        return before.is_some() && given == 0;
    };
    if given == 0 && before.is_some_and(|answers| answers.as_bytes() == left.as_slice()) {
        return true;
    }
    let answered = (given / 5).saturating_sub(1);
    let more = if given == 0 { 1 } else { 2 };
    story
        .answers
        .iter()
        .skip(answered)
        .take(more)
        .any(|answers| answers.as_bytes() == left.as_slice())
}

// How many of the images that a power loss leaves in the writes of a run aren't allowed.
fn count_wrong(
    alloc: Global,
    story: &Story,
    bench: &MemBench,
    before: Option<&str>,
) -> Result<usize, AllocError> {
    let mut wrong = 0usize;
    for write in 0..bench.writes() {
        for fill in FILLS {
            let found = bench.image_within(alloc, write, fill)?;
            let is_right = match (found, bench.given_at(write)) {
                (Some(image), Some(given)) => {
                    may_be_left(
                        story,
                        &look_at(alloc, "apdu", &image, story.probe)?,
                        given,
                        before,
                    )
                }
                _ => false,
            };
            if !is_right {
                wrong = wrong.saturating_add(1);
            }
        }
    }
    Ok(wrong)
}

// How many of these images have an open gate, so that an opening has to write.
fn count_open(alloc: Global, bench: &MemBench) -> Result<usize, AllocError> {
    let mut open = 0usize;
    for write in 0..bench.writes() {
        for fill in FILLS {
            let found = bench.image_within(alloc, write, fill)?;
            if found.is_some_and(|image| is_open(&image)) {
                open = open.saturating_add(1);
            }
        }
    }
    Ok(open)
}

// Whether the card of an image has all changes of a story.
fn has_all(alloc: Global, story: &Story, image: &[u8]) -> Result<bool, AllocError> {
    let left = look_at(alloc, "apdu", image, story.probe)?;
    Ok(match (left, story.answers.last()) {
        (Some(left), Some(answers)) => left.as_slice() == answers.as_bytes(),
        _ => false,
    })
}

#[test]
fn cut_in_each_write(rt: HostRuntime) -> Result<(), Fail> {
    let alloc = rt.alloc();
    let fresh = fresh_card(alloc)?;
    let mut with_ann = fresh_card(alloc)?;
    lay(with_ann.as_mut_slice(), &WITH_ANN);
    // `new` writes all octets behind the first four in one piece, and then those four; before that, where they are a card's, zeros over them.
    let rows: [(&[&str], &[u8], Option<&str>, usize); 3] = [
        (&["apdu"], &fresh, None, WRITES_FOR_THREE),
        (
            &["new", "16"],
            &[0xA5; 1154],
            Some("no card"),
            2 + WRITES_FOR_THREE,
        ),
        (
            &["new", "16"],
            &with_ann,
            Some("9000\n6A88\n6A88\n"),
            3 + WRITES_FOR_THREE,
        ),
    ];
    for (words, image, before, writes) in rows {
        let (status, bench) = run_over(alloc, words, THREE_USERS.lines, image, no_faults(alloc))?;
        assert!(rt; status == Status::Done, "{before:?}");
        assert_eq!(rt; bench.writes(), writes, "{before:?}");
        // For each user the first write of the gate with FF, each of the directory's two, and the last of the gate with FF.
        assert!(rt; 24 <= count_open(alloc, &bench)?, "{before:?}");
        assert!(rt; has_all(alloc, &THREE_USERS, bench.image())?, "{before:?}");
        assert_eq!(rt;
            count_wrong(alloc, &THREE_USERS, &bench, before)?,
            0,
            "{before:?}"
        );
    }
    Ok(())
}

#[test]
fn cut_while_a_table_is_filled_and_dropped(rt: HostRuntime) -> Result<(), Fail> {
    let alloc = rt.alloc();
    let fresh = fresh_card(alloc)?;
    let (status, bench) = run_over(
        alloc,
        &["apdu"],
        TABLE_WITH_ROWS.lines,
        &fresh,
        no_faults(alloc),
    )?;
    assert!(rt; status == Status::Done);
    assert_eq!(rt; bench.given(), b"9000\n9000\n9000\n9000\n9000\n".as_slice());
    assert!(rt; has_all(alloc, &TABLE_WITH_ROWS, bench.image())?);
    assert_eq!(rt; count_wrong(alloc, &TABLE_WITH_ROWS, &bench, None)?, 0);
    Ok(())
}

// The lines that make a table and insert so many rows.
fn lines_of_rows(alloc: Global, rows: usize) -> Result<String, AllocError> {
    let mut lines = String::from_str(alloc, "0014008006054F574E4552\n00100080040154015A\n")?;
    for _row in 0..rows {
        lines.push_str("0010008C0401540178\n")?;
    }
    Ok(lines)
}

// A table of 1,000 rows is dropped in one commit of 14 writes, none of more than 512 octets: the journal's 4,006 octets are eight,
// the gate, the directory's 2,002, whose entries are neighbours, are four, and the gate.
#[test]
fn cut_while_many_rows_are_dropped(rt: HostRuntime) -> Result<(), Fail> {
    let alloc = rt.alloc();
    let lines = lines_of_rows(alloc, 1000)?;
    let (_, filled) = run_over(
        alloc,
        &["new", "2048"],
        lines.as_str(),
        vec![in alloc; 0u8; 143_394]?.as_slice(),
        no_faults(alloc),
    )?;
    assert_eq!(rt; filled.given().len(), 5 * 1002);
    let (status, bench) = run_over(
        alloc,
        &["apdu"],
        DROPPED_TABLE.lines,
        filled.image(),
        no_faults(alloc),
    )?;
    assert!(rt; status == Status::Done);
    assert_eq!(rt; bench.given(), b"9000\n9000\n".as_slice());
    assert_eq!(rt; bench.writes(), 14);
    assert!(rt; has_all(alloc, &DROPPED_TABLE, bench.image())?);
    assert_eq!(rt; count_wrong(alloc, &DROPPED_TABLE, &bench, None)?, 0);
    Ok(())
}
