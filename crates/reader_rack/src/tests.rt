// Each call once, over a boxed link: what is printed, and how each line ends.
use crate::{Rack, RackEnd, RackRefusal};
use apdu::Reply;
use arrayvec::ArrayVec;
use card_link::{CardLink, Outcome};
use eeprom::{Outlet, SinkFault};
use scql_base::StatusWord;
use script::ScriptFault;
use std::alloc::AllocError;
use taken_line::TakenLine;
use terminal::Refusal;

fn refused(why: RackRefusal) -> RackEnd {
    RackEnd::Refused { why }
}

fn refused_line(why: Refusal) -> RackEnd {
    refused(RackRefusal::Line { why })
}

// A card that answers each command by 9000. Nothing is told of it.
#[derive(Drop)]
struct Fine {}

impl CardLink for Fine {
    ghost use Rattle.std.specs.Prelude.{true};
    ghost use Rattle.std.proofs.Common.{refl};
    ghost use Rattle.reader_rack.specs.Desks.{untold};

    ghost is_at = { λ _ _. ⊥ };

    ghost is_live = { λ _. true };

    ghost faults = { λ _. 0 };

    ghost mark = { λ _. 0 };

    ghost chip = { λ _. untold };

    ghost keeps = { λ _ _. Unit {0} };

    ghost goes_on = { λ _ _. Unit {0} };

    fn live(&self) -> bool {
        true
    }

    fn exchange(&mut self, _command: &[u8], reply: &mut Reply) -> Outcome {
        reply.body.clear();
        reply.word = StatusWord::DONE;
        Outcome::Replied
    }

    fn reset(&mut self) {}

    ghost marks = { λ _. refl };

    ghost opens = { λ _ _ at. absurd at };

    ghost keeps_same = { λ _. tt };

    ghost keeps_then = { λ _ _ _ _ _. tt };

    ghost goes_on_same = { λ _. tt };

    ghost goes_on_then = { λ _ _ _ _ _. tt };

    ghost valid = { λ _ _ at. absurd at };
}

// What was printed, as far as there is room.
#[derive(Drop)]
struct Shown {
    text: ArrayVec<u8, 128>,
}

impl Outlet for Shown {
    ghost use Rattle.std.specs.Prelude.{None};

    ghost given = { λ _. None };

    ghost sink_faults = { λ _. 0 };

    ghost leaves = { λ _ _. Unit {0} };

    fn give(&mut self, octets: &[u8]) -> Result<(), SinkFault> {
        // A text that is full stays as it is.
        let _ = self.text.try_extend_from_slice(octets);
        Ok(())
    }
}

#[test]
fn each_reader_answers_for_itself(rt: HostRuntime) -> Result<(), AllocError> {
    let alloc = rt.alloc();
    let mut rack = Rack::new(Shown {
        text: ArrayVec::new(),
    });
    assert_eq!(rt; rack.insert(3, Box::new(alloc, Fine {})?).is_ok(), true);

    assert_eq!(rt;
        rack.line(TakenLine { octets: b"BEGIN" }),
        refused(RackRefusal::NoCard)
    );
    assert_eq!(rt;
        rack.line(TakenLine { octets: b"# BEGIN" }),
        RackEnd::Answered
    );
    assert_eq!(rt;
        rack.line(TakenLine {
            octets: b"READER 3;"
        }),
        RackEnd::Answered
    );
    assert_eq!(rt;
        rack.line(TakenLine {
            octets: b"READER 0"
        }),
        refused_line(Refusal::Fault {
            fault: ScriptFault::At { place: 0 }
        })
    );
    assert_eq!(rt;
        rack.line(TakenLine { octets: b"BEGIN" }),
        RackEnd::Answered
    );
    assert_eq!(rt;
        rack.line(TakenLine { octets: b"EJECT 3" }),
        RackEnd::Answered
    );
    assert_eq!(rt; rack.eject(3), false);
    assert_eq!(rt;
        rack.line(TakenLine { octets: b"EJECT 4" }),
        refused(RackRefusal::NoCard)
    );
    assert_eq!(rt; rack.refuse_long_line(), refused_line(Refusal::TooLong));
    assert_eq!(rt;
        rack.outlet().text.as_slice(),
        b"no card\nok\nerror at 0\nok\nok\nno card\nerror line too long\n".as_slice()
    );
    Ok(())
}

#[test]
fn a_command_goes_past_the_terminal(rt: HostRuntime) -> Result<(), AllocError> {
    let alloc = rt.alloc();
    let mut rack = Rack::new(Shown {
        text: ArrayVec::new(),
    });
    let mut reply = Reply {
        body: ArrayVec::new(),
        word: StatusWord::MEMORY_FAILURE,
    };
    assert_eq!(rt; rack.insert(4, Box::new(alloc, Fine {})?).is_ok(), true);
    if rack.live(4) {
        assert_eq!(rt;
            rack.exchange(4, b"\x00\x12\x00\x80", &mut reply),
            Outcome::Replied
        );
    }
    if rack.live(4) {
        rack.reset(4);
    }
    assert_eq!(rt; reply.word, StatusWord::DONE);
    assert_eq!(rt; rack.give(b"-").is_ok(), true);
    assert_eq!(rt; rack.outlet().text.as_slice(), b"-".as_slice());
    Ok(())
}
