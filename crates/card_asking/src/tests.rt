// Each call once, over a link of each kind: what is asked in turn, and what ends it.
ghost use Rattle.std.specs.Prelude.{◌≡◌, true, None};

use crate::carry_out;
use apdu::Reply;
use arrayvec::ArrayVec;
use card_link::{CardLink, FailingLink, Outcome, Recorder};
use planner::{Closing, Plan, Step};
use scql_base::StatusWord;
use script::Statement;
use taken_line::TakenLine;

// A card that answers by these words, the last one first, and then by 9000. Nothing is told of it.
#[derive(Drop)]
struct Answering {
    words: ArrayVec<u16, 4>,
}

impl CardLink for Answering {
    ghost use Rattle.std.specs.Prelude.{None, true};
    ghost use Rattle.std.proofs.Common.{refl};

    ghost is_at = { λ _ _. ⊥ };

    ghost is_live = { λ _. true };

    ghost faults = { λ _. 0 };

    ghost mark = { λ _. 0 };

    ghost chip = { λ _. record { still = record { size = 0; mark = 0; given = None; sink_faults = 0 }; image = None; written = None; clock = 0; past = None } };

    ghost keeps = { λ _ _. Unit {0} };

    ghost goes_on = { λ _ _. Unit {0} };

    fn live(&self) -> bool {
        true
    }

    fn exchange(&mut self, _command: &[u8], reply: &mut Reply) -> Outcome {
        reply.body.clear();
        reply.word = StatusWord {
            word: self.words.pop().unwrap_or(0x9000),
        };
        Outcome::Replied
    }

    fn reset(&mut self) {}

    ghost marks = { λ _. refl };

    ghost opens = { λ _ _ at. absurd at };

    ghost keeps_same = { λ _. tt };

    ghost keeps_then = { λ _ _ _ _ _. tt };

    ghost goes_on_same = { λ _. tt };

    ghost goes_on_then = { λ _ _ _ _ _. tt };

    ghost valid = { λ _ _ at. absurd at };
}

// Carries out a line on a card that answers so and is mute after so many commands: how it closes, and the words that were heard.
fn carried_out(line: &[u8], words: &[u16], left: u16) -> (Option<Closing>, ArrayVec<u16, 8>) {
    let mut answering = Answering {
        words: ArrayVec::new(),
    };
    let _ = answering.words.try_extend_from_slice(words);
    let mut link: Recorder<FailingLink<Answering>, 8> = Recorder::new(FailingLink::new(
        answering, left,
    ));
    let mut plan = Plan::start(Statement::Blank, 0, false);
    let mut step = Step::ResetCard;
    let mut reply = Reply {
        body: ArrayVec::new(),
        word: StatusWord::DONE,
    };
    let mut closing = None;
    if let Some(line) = TakenLine::of(line) {
        if plan.read(line, 0, false).is_ok() {
            closing = carry_out(&mut link, &mut plan, &mut step, &mut reply).ok();
        }
    }
    let mut heard = ArrayVec::new();
    let _ = heard.try_extend_from_slice(link.words());
    (closing, heard)
}

#[test]
fn a_select_is_asked_command_by_command(rt: HostRuntime) {
    let (closing, heard) = carried_out(b"SELECT * FROM T", &[0x6282, 0x9000], 9);
    assert_eq!(rt; closing, Some(Closing::Rows { number: 0 }));
    assert_eq!(rt; heard.as_slice(), [0x9000, 0x6282].as_slice());

    let (closing, heard) = carried_out(b"SELECT * FROM T", &[0x6A88], 9);
    assert_eq!(rt;
        closing,
        Some(Closing::Refused {
            word: StatusWord::NOT_FOUND
        })
    );
    assert_eq!(rt; heard.as_slice(), [0x6A88].as_slice());
}

#[test]
fn a_mute_card_ends_a_plan(rt: HostRuntime) {
    let (closing, heard) = carried_out(b"SELECT * FROM T", &[0x6282, 0x9000], 1);
    assert_eq!(rt; closing, None);
    assert_eq!(rt; heard.as_slice(), [0x9000].as_slice());
}

#[test]
fn a_refused_part_ends_a_command(rt: HostRuntime) {
    let mut line: ArrayVec<u8, 512> = ArrayVec::new();
    let _ = line.try_extend_from_slice(b"INSERT INTO T VALUES ('");
    let _ = line.try_extend_from_slice(&[b'a'; 200]);
    let _ = line.try_extend_from_slice(b"', '");
    let _ = line.try_extend_from_slice(&[b'b'; 200]);
    let _ = line.try_extend_from_slice(b"')");

    let (closing, heard) = carried_out(&line, &[], 9);
    assert_eq!(rt; closing, Some(Closing::Fine));
    assert_eq!(rt; heard.as_slice(), [0x9000, 0x9000].as_slice());

    let (closing, heard) = carried_out(&line, &[0x6A80], 9);
    assert_eq!(rt;
        closing,
        Some(Closing::Refused {
            word: StatusWord::WRONG_DATA
        })
    );
    assert_eq!(rt; heard.as_slice(), [0x6A80].as_slice());
}
