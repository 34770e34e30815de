// Worked rows over a bench in memory.
mod cuts;
mod faults;
mod links;
mod loading;
mod migrating;
mod opening;
mod power_loss;
mod reads;
mod scripts;
mod statements;
mod telling;

use crate::run::run_card;
use eeprom::{FaultPlan, MemBench, MemSource, SteadySource};
use person::Nobody;
use program::Status;
use std::alloc::{AllocError, Global};
use std::test::Fail;

/// The image of a fresh card of 16 cells: what stands at which place. All else is 00.
const FRESH_CARD: [(usize, &[u8]); 5] = [
    (0, &[0x53, 0x43, 0x51, 0x4C, 0x02, 0x00, 0x00, 0x10, 0x00]),
    (32, &[0x00, 0x00, 0x00, 0x01]),
    (36, &[0xFF; 28]),
    (130, &[0xFF, 0xFF, 0x00, 0x05, 0x00, 0x00, 0x00, 0x00, 0x02]),
    (
        162,
        &[
            0xFF, 0xFF, 0x00, 0x12, 0x01, 0x00, 0x00, 0x00, 0x01, 0x00, 0x00, 0x00, 0x01, 0x01,
            0x03, 0x05, 0x4F, 0x57, 0x4E, 0x45, 0x52, 0x00,
        ],
    ),
];

/// What is different in it after OWNER made ANN, a basic user.
const WITH_ANN: [(usize, &[u8]); 4] = [
    (32, &[0x00, 0x03, 0x00, 0x01, 0x00, 0x02]),
    (
        64,
        &[0x00, 0x02, 0x00, 0x00, 0x00, 0x03, 0x00, 0x02, 0x00, 0x02],
    ),
    (
        194,
        &[
            0xFF, 0xFF, 0x00, 0x10, 0x01, 0x00, 0x00, 0x00, 0x02, 0x00, 0x00, 0x00, 0x01, 0x03,
            0x03, 0x03, 0x41, 0x4E, 0x4E, 0x00,
        ],
    ),
    (226, &[0xFF, 0xFF, 0x00, 0x05, 0x00, 0x00, 0x00, 0x00, 0x03]),
];

/// OWNER makes 15 users on a card that has room for 14, and is presented again.
const FULL_CARD: &str = "0014008006054F574E4552
00140081050141010300
00140081050142010300
00140081050143010300
00140081050144010300
00140081050145010300
00140081050146010300
00140081050147010300
00140081050148010300
00140081050149010300
0014008105014A010300
0014008105014B010300
0014008105014C010300
0014008105014D010300
0014008105014E010300
0014008105014F010300
0014008006054F574E4552
";

const FULL_CARD_ANSWERS: &str = "9000
9000
9000
9000
9000
9000
9000
9000
9000
9000
9000
9000
9000
9000
9000
6A84
9000
";

// A bench of so many equal octets, which never fails.
fn bench_of(alloc: Global, size: usize, octet: u8) -> Result<MemBench, AllocError> {
    MemBench::new(alloc, vec![in alloc; octet; size]?, no_faults(alloc))
}

fn no_faults(alloc: Global) -> FaultPlan {
    FaultPlan {
        reads: Vec::new(alloc),
        writes: Vec::new(alloc),
        gives: Vec::new(alloc),
        fill: 0,
    }
}

// A run over an image and an input, and the bench after it. The input comes in pieces of 100 octets.
fn run_over(
    alloc: Global,
    words: &[&str],
    input: &str,
    image: &[u8],
    plan: FaultPlan,
) -> Result<(Status, MemBench), AllocError> {
    let words = words_of(alloc, words)?;
    let mut source = SteadySource::new(Vec::from_slice(alloc, input.as_bytes())?, 100);
    let mut bench = MemBench::new(alloc, Vec::from_slice(alloc, image)?, plan)?;
    let status = run_card(alloc, &words, &mut source, &mut bench, &mut Nobody);
    Ok((status, bench))
}

// The image of a fresh card of 16 cells.
fn fresh_card(alloc: Global) -> Result<Vec<u8>, AllocError> {
    let mut image = vec![in alloc; 0u8; 1154]?;
    lay(image.as_mut_slice(), &FRESH_CARD);
    Ok(image)
}

// Whether an image's gate is open.
fn is_open(image: &[u8]) -> bool {
    image.get(8).is_some_and(|gate| *gate % 2 == 1)
}

fn words_of(alloc: Global, words: &[&str]) -> Result<Vec<String>, AllocError> {
    let mut owned = Vec::new(alloc);
    for word in words {
        owned.push(String::from_str(alloc, word)?)?;
    }
    Ok(owned)
}

#[test]
fn worked_rows(rt: HostRuntime) -> Result<(), Fail> {
    let alloc = rt.alloc();
    let rows: [(&[&str], &str, Status, &str); 16] = [
        (
            &["new", "64"],
            "0014008006054F574E4552\n",
            Status::Done,
            "9000\n",
        ),
        (
            &["new", "64"],
            "00140080050444414E41",
            Status::Done,
            "6A88\n",
        ),
        (
            &["new", "64"],
            "00140080050444414E41\n001400810703414E4E010300\n",
            Status::Done,
            "6A88\n6982\n",
        ),
        (
            &["new", "64"],
            "0014008006054F574E4552\n001400810703414E4E010300\n001400810703414E4E010300\n",
            Status::Done,
            "9000\n9000\n6A89\n",
        ),
        (&["new", "16"], FULL_CARD, Status::Done, FULL_CARD_ANSWERS),
        (
            &["new", "16"],
            "zz\n0\nreset\n\n# note\n 00 10 00 \n",
            Status::Done,
            "not hexadecimal\nnot hexadecimal\nreset\n6700\n",
        ),
        (
            &["new", "00064"],
            "80140080\n00FF0080\n01140080\n0014008f",
            Status::Done,
            "6E00\n6D00\n6881\n6A86\n",
        ),
        (&["apdu"], "00", Status::NotACard, ""),
        (&["migrate"], "00", Status::NotACard, ""),
        (&["new", "15"], "00", Status::Usage, ""),
        (&["new", "2049"], "00", Status::Usage, ""),
        (&["new"], "00", Status::Usage, ""),
        (&["apdu", "x"], "00", Status::Usage, ""),
        (&["migrate", "x"], "00", Status::Usage, ""),
        (&["MIGRATE"], "00", Status::Usage, ""),
        (&[], "00", Status::Usage, ""),
    ];
    for (words, input, status, output) in rows {
        let words = words_of(alloc, words)?;
        let mut source = SteadySource::new(Vec::from_slice(alloc, input.as_bytes())?, 7);
        let mut bench = bench_of(alloc, 5000, 0xA5)?;
        let found = run_card(alloc, &words, &mut source, &mut bench, &mut Nobody);
        assert!(rt; found == status, "{input}");
        assert_eq!(rt; bench.given(), output.as_bytes(), "{input}");
    }
    Ok(())
}

#[test]
fn least_size(rt: HostRuntime) -> Result<(), Fail> {
    let alloc = rt.alloc();
    let words = words_of(alloc, &["new", "16"])?;
    let mut source = SteadySource::new(Vec::new(alloc), 1);
    let mut small = bench_of(alloc, 1153, 0xA5)?;
    let status = run_card(alloc, &words, &mut source, &mut small, &mut Nobody);
    assert!(rt; status == Status::TooSmall, "too small");
    assert!(rt;
        small.image().iter().all(|octet| *octet == 0xA5),
        "the image stays"
    );
    let mut bench = bench_of(alloc, 1154, 0xA5)?;
    let status = run_card(alloc, &words, &mut source, &mut bench, &mut Nobody);
    assert!(rt; status == Status::Done, "large enough");
    assert_eq!(rt;
        bench.image(),
        fresh_card(alloc)?.as_slice(),
        "a fresh card"
    );
    Ok(())
}

// Lays octets into an image.
fn lay(image: &mut [u8], parts: &[(usize, &[u8])]) {
    for (place, octets) in parts {
        for (i, octet) in octets.iter().enumerate() {
            let place = place.saturating_add(i);
            if place < image.len() {
                image[place] = *octet;
            }
        }
    }
}

#[test]
fn committed_user(rt: HostRuntime) -> Result<(), Fail> {
    let alloc = rt.alloc();
    let words = words_of(alloc, &["new", "16"])?;
    let input = b"0014008006054F574E4552\n001400810703414E4E010300\n".as_slice();
    let mut source = SteadySource::new(Vec::from_slice(alloc, input)?, 100);
    let mut bench = bench_of(alloc, 1154, 0xA5)?;
    let status = run_card(alloc, &words, &mut source, &mut bench, &mut Nobody);
    assert!(rt; status == Status::Done);
    assert_eq!(rt; bench.given(), b"9000\n9000\n".as_slice());
    let mut image = fresh_card(alloc)?;
    lay(image.as_mut_slice(), &WITH_ANN);
    assert_eq!(rt; bench.image(), image.as_slice(), "a card with ANN");
    Ok(())
}

// Which device fails.
#[derive(Clone, Copy, Debug)]
enum Failing {
    Read,
    Write,
    Give,
    Source,
}

// The status and the output of a run in which a device fails at its call of that number.
fn run_failing(
    alloc: Global,
    failing: Failing,
    number: usize,
    input: &str,
) -> Result<(Status, Vec<u8>), AllocError> {
    let words = words_of(alloc, &["new", "16"])?;
    let mut plan = FaultPlan {
        reads: Vec::new(alloc),
        writes: Vec::new(alloc),
        gives: Vec::new(alloc),
        fill: 0x5A,
    };
    let mut fails = Vec::new(alloc);
    match failing {
        Failing::Read => plan.reads.push(number)?,
        Failing::Write => plan.writes.push(number)?,
        Failing::Give => plan.gives.push(number)?,
        Failing::Source => fails.push(number)?,
    }
    let mut source = MemSource::new(Vec::from_slice(alloc, input.as_bytes())?, 30, fails);
    let mut bench = MemBench::new(alloc, vec![in alloc; 0u8; 1154]?, plan)?;
    let status = run_card(alloc, &words, &mut source, &mut bench, &mut Nobody);
    Ok((status, Vec::from_slice(alloc, bench.given())?))
}

// Each call of a device fails in turn. The outputs that then come are named in their order; each comes
// as often as there are calls with it. The source gives the second line in two pieces.
#[test]
fn failing_devices(rt: HostRuntime) -> Result<(), Fail> {
    let alloc = rt.alloc();
    let one = "0014008006054F574E4552\n";
    let two = "0014008006054F574E4552\n0014008006054F574E4552\n";
    let rows: [(Failing, &str, Status, &[&str]); 8] = [
        (Failing::Read, one, Status::Eeprom, &["", "6581\n"]),
        (
            Failing::Read,
            two,
            Status::Eeprom,
            &["", "6581\n", "9000\n6581\n"],
        ),
        (Failing::Write, one, Status::Eeprom, &[""]),
        (Failing::Write, two, Status::Eeprom, &[""]),
        (Failing::Give, one, Status::WriteFault, &["90"]),
        (Failing::Give, two, Status::WriteFault, &["90", "9000\n90"]),
        (Failing::Source, one, Status::ReadFault, &["", "9000\n"]),
        (
            Failing::Source,
            two,
            Status::ReadFault,
            &["", "9000\n", "9000\n9000\n"],
        ),
    ];
    for (failing, input, status, outputs) in rows {
        let mut left = outputs;
        let mut ended = false;
        for number in 0..1000 {
            let (found, given) = run_failing(alloc, failing, number, input)?;
            if found == Status::Done {
                ended = true;
                break;
            }
            if let [first, rest @ ..] = left {
                if first.as_bytes() != given.as_slice() {
                    left = rest;
                }
            }
            assert!(rt; found == status, "{failing:?} {number}");
            assert!(rt;
                left.first()
                    .is_some_and(|output| output.as_bytes() == given.as_slice()),
                "{failing:?} {number}"
            );
        }
        assert!(rt; ended && left.len() == 1, "{failing:?}");
    }
    Ok(())
}

#[test]
fn largest_card(rt: HostRuntime) -> Result<(), Fail> {
    let alloc = rt.alloc();
    let words = words_of(alloc, &["new", "2048"])?;
    let mut source = SteadySource::new(Vec::new(alloc), 1);
    let mut bench = bench_of(alloc, 143394, 0)?;
    let status = run_card(alloc, &words, &mut source, &mut bench, &mut Nobody);
    assert!(rt; status == Status::Done);
    // Pieces of at least 1,024 octets, a last one, and the front.
    assert!(rt; bench.writes() <= 143390 / 1024 + 2);
    Ok(())
}
