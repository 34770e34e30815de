// Runs over racks of cards in memory: a filled card and a fresh one, a card that fails, and one that records its answers.
ghost use Rattle.std.specs.Prelude.{◌≡◌, IfOk, IsTrue};

use apdu::Reply;
use arrayvec::ArrayVec;
use card::{Card, SlotCard};
use card_link::{CardLink, FailingLink, Outcome, Recorder};
use eeprom::{FaultPlan, MemBench, Outlet, SinkFault, SteadySource};
use person::{Nobody, Person, Presence};
use rack_run::{RackStatus, run_rack};
use reader_rack::Rack;
use scql_base::StatusWord;
use std::alloc::{AllocError, Global};
use std::process::Abort;
use std::test::Fail;

// What was printed, as far as there is room.
#[derive(Drop)]
struct Page {
    text: ArrayVec<u8, 512>,
}

impl Page {
    fn new() -> Page {
        Page {
            text: ArrayVec::new(),
        }
    }
}

impl Outlet for Page {
    ghost use Rattle.std.specs.Prelude.{None};

    ghost given = { λ _. None };

    ghost sink_faults = { λ _. 0 };

    ghost leaves = { λ _ _. Unit {0} };

    fn give(&mut self, octets: &[u8]) -> Result<(), SinkFault> {
        // A text that is full stays as it is.
        let _ = self.text.try_extend_from_slice(octets);
        Ok(())
    }
}

// A person who keeps what is shown, as far as there is room.
#[derive(Drop)]
struct Watching {
    text: ArrayVec<u8, 512>,
}

impl Watching {
    fn new() -> Watching {
        Watching {
            text: ArrayVec::new(),
        }
    }
}

impl Person for Watching {
    ghost use Rattle.std.specs.Prelude.{None, false};

    ghost shown = { λ _. None };

    ghost lost = { λ _. false };

    fn show(&mut self, text: &[u8]) {
        // A text that is full stays as it is.
        let _ = self.text.try_extend_from_slice(text);
    }

    fn presence(&self) -> Presence {
        Presence::Watching
    }

    fn show_title(&mut self) {
        self.show(b"");
    }
}

// A card that may fail, whose answers are recorded, and told where it is asked for them. Nothing else is told of it.
#[derive(Drop)]
struct Telling {
    recorder: Recorder<FailingLink<SlotCard<MemBench>>, 8>,
}

impl CardLink for Telling {
    ghost use Rattle.std.proofs.Common.{refl};
    ghost use Rattle.reader_rack.specs.Desks.{untold};

    ghost is_at = { λ _ _. ⊥ };

    ghost is_live = { λ t. ⟦<FailingLink<SlotCard<MemBench>> as CardLink>⟧.is_live t.recorder.inner };

    ghost faults = { λ t. ⟦<FailingLink<SlotCard<MemBench>> as CardLink>⟧.faults t.recorder.inner };

    ghost mark = { λ _. 0 };

    ghost chip = { λ _. untold };

    ghost keeps = { λ _ _. Unit {0} };

    ghost goes_on = { λ _ _. Unit {0} };

    fn live(&self) -> bool {
        self.recorder.live()
    }

    fn exchange(&mut self, command: &[u8], reply: &mut Reply) -> Outcome {
        if command == TELL {
            tell(self.recorder.words(), reply);
            return Outcome::Replied;
        }
        self.recorder.exchange(command, reply)
    }

    fn reset(&mut self) {
        self.recorder.reset();
    }

    ghost marks = { λ _. refl };

    ghost opens = { λ _ _ at. absurd at };

    ghost keeps_same = { λ _. tt };

    ghost keeps_then = { λ _ _ _ _ _. tt };

    ghost goes_on_same = { λ _. tt };

    ghost goes_on_then = { λ _ _ _ _ _. tt };

    ghost valid = { λ _ _ at. absurd at };
}

// What asks for the answers that were recorded.
const TELL: &[u8] = b"tell";

fn tell(words: &[u16], reply: &mut Reply) {
    reply.body.clear();
    for word in words {
        // As far as there is room.
        let _ = reply.body.try_extend_from_slice(&word.to_be_bytes());
    }
    reply.word = StatusWord::DONE;
}

// A fresh card of 64 cells in a box, which passes so many commands on.
fn fresh_card(rt: &impl Abort, alloc: Global, commands: u16) -> Result<Box<Telling>, AllocError>
    ensures { IfOk result (λ card. IsTrue (⟦<Telling as CardLink>⟧.is_live card.value)) }
{
    let plan = FaultPlan {
        reads: Vec::new(alloc),
        writes: Vec::new(alloc),
        gives: Vec::new(alloc),
        fill: 0,
    };
    let mut bench = MemBench::new(alloc, vec![in alloc; 0u8; 4514]?, plan)?;
    if Card::format(&mut bench, 64).is_err() {
        panic!(rt; "no room");
    }
    match Card::open(alloc, &mut bench) {
        Ok(card) => boxed(
            alloc,
            Telling {
                recorder: Recorder::new(FailingLink::new(SlotCard::new(card, bench), commands)),
            },
        ),
        Err(_) => panic!(rt; "no card"),
    }
}

fn boxed(alloc: Global, card: Telling) -> Result<Box<Telling>, AllocError>
    ensures { IfOk result (λ boxed. boxed.value ≡ card) }
{
    match Box::new(alloc, card) {
        Ok(boxed) => Ok(boxed),
        Err(_) => Err(AllocError),
    }
}

// Runs lines over a rack.
fn run_lines<O: Outlet, L: CardLink, P: Person, N: Person>(
    alloc: Global,
    lines: &str,
    rack: &mut Rack<O, L>,
    person: &mut P,
    notices: &mut N,
) -> Result<RackStatus, AllocError> {
    let mut source = SteadySource::new(Vec::from_slice(alloc, lines.as_bytes())?, 100);
    Ok(run_rack(&mut source, rack, person, notices))
}

/// A table of items, a view of those at one place, and a user who may read it.
const FILLING: &str = "PRESENT OWNER
CREATE TABLE ITEM (NAME, PLACE, QTY)
INSERT INTO ITEM VALUES ('bolt', 'B1', '0040')
INSERT INTO ITEM VALUES ('cap', 'A2', '0007')
INSERT INTO ITEM VALUES ('rod', 'B1', '0003')
INSERT INTO ITEM VALUES ('it''s', 'B1', '0050')
INSERT INTO ITEM VALUES (X'00', 'A2', '0099')
CREATE VIEW B1 AS SELECT NAME, QTY FROM ITEM WHERE PLACE = 'B1' AND QTY >= '0040'
CREATE USER ANN DBBU
GRANT SELECT ON B1 TO ANN
";

const FILLED: &str = "ok\nok\nok\nok\nok\nok\nok\nok\nok\nok\n";

#[test]
fn each_card_answers_for_itself(rt: HostRuntime) -> Result<(), Fail> {
    let alloc = rt.alloc();
    let mut rack = Rack::new(Page::new());
    let first = fresh_card(&rt, alloc, 1000)?;
    let second = fresh_card(&rt, alloc, 1000)?;
    assert!(rt; rack.insert(1, first).is_ok());
    assert!(rt; rack.insert(2, second).is_ok());
    let mut person = Watching::new();
    assert!(rt;
        run_lines(alloc, FILLING, &mut rack, &mut person, &mut Nobody)? == RackStatus::Done
    );
    let mut person = Watching::new();
    let lines = "PRESENT ANN
READER 2
PRESENT ANN
READER 1
SELECT QTY FROM B1
EJECT 2
READER 2
BEGIN
EJECT 2
";
    let mut notices = Watching::new();
    assert!(rt;
        run_lines(alloc, lines, &mut rack, &mut person, &mut notices)? == RackStatus::Refused
    );
    let text = rack.outlet().text.as_slice();
    assert!(rt; text.starts_with(FILLED.as_bytes()));
    assert!(rt;
        &text[FILLED.len()..]
            == b"ok\nok\nrefused 6A88\nok\n'0040'\n'0050'\nrows 2\nok\nok\nno card\nno card\n".as_slice()
    );
    assert!(rt; person.text.as_slice() == b"1> 1> 2> 2> 1> 1> 1> 2> 2> 2> ".as_slice());
    assert!(rt;
        notices.text.as_slice()
            == b"line 3: not found: no user ANN
line 5: QTY
line 8: this reader has no card that answers
line 9: this reader has no card that answers
3 of 9 lines were refused or are no statement (exit status 1).
"
                .as_slice()
    );
    Ok(())
}

#[test]
fn a_card_that_goes_mute_leaves_the_others(rt: HostRuntime) -> Result<(), Fail> {
    let alloc = rt.alloc();
    let mut rack = Rack::new(Page::new());
    let first = fresh_card(&rt, alloc, 1000)?;
    let second = fresh_card(&rt, alloc, 1)?;
    let third = fresh_card(&rt, alloc, 1000)?;
    assert!(rt; rack.insert(1, first).is_ok());
    assert!(rt; rack.insert(2, second).is_ok());
    assert!(rt; rack.insert(3, third).is_ok());
    let lines = "READER 2
PRESENT OWNER
BEGIN
BEGIN
READER 1
PRESENT OWNER
READER 3
PRESENT NOBODY
PRESENT OWNER
";
    let mut person = Watching::new();
    assert!(rt; run_lines(alloc, lines, &mut rack, &mut person, &mut Nobody)? == RackStatus::Mute);
    assert!(rt;
        rack.outlet().text.as_slice()
            == b"ok\nok\ncard mute\nno card\nok\nok\nok\nrefused 6A88\nok\n".as_slice()
    );
    let mut reply = Reply {
        body: ArrayVec::new(),
        word: StatusWord::NOT_FOUND,
    };
    if rack.live(3) {
        assert!(rt; rack.exchange(3, TELL, &mut reply) == Outcome::Replied);
    }
    assert!(rt; reply.body.as_slice() == b"\x6A\x88\x90\x00".as_slice());
    Ok(())
}
