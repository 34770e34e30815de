// What a person who types statements is told beside the answers.
use super::{fresh_card, no_faults, words_of};
use crate::run::run_card;
use arrayvec::ArrayVec;
use eeprom::{MemBench, SteadySource};
use person::{Person, Presence};
use program::Status;
use std::test::Fail;

// A person who types, and keeps what is shown, as far as there is room.
#[derive(Drop)]
struct Typist {
    text: ArrayVec<u8, 512>,
}

impl Person for Typist {
    ghost use Rattle.std.specs.Prelude.{None, false};

    ghost shown = { λ _. None };

    ghost lost = { λ _. false };

    fn show(&mut self, text: &[u8]) {
        // A text that is full stays as it is.
        let _ = self.text.try_extend_from_slice(text);
    }

    fn presence(&self) -> Presence {
        Presence::Typing
    }

    fn show_title(&mut self) {
        self.show(b"fresh.img");
    }
}

#[test]
fn who_types_is_told(rt: HostRuntime) -> Result<(), Fail> {
    let alloc = rt.alloc();
    let words = words_of(alloc, &["term"])?;
    let lines = b"PRESENT ANN\nPRESENT OWNER\nSELECT A, B FROM T\n";
    let mut source = SteadySource::new(Vec::from_slice(alloc, lines)?, 100);
    let mut bench = MemBench::new(alloc, fresh_card(alloc)?, no_faults(alloc))?;
    let mut person = Typist {
        text: ArrayVec::new(),
    };
    let status = run_card(alloc, &words, &mut source, &mut bench, &mut person);
    assert!(rt; status == Status::Refused);
    assert!(rt; bench.given() == b"refused 6A88\nok\nrefused 6A88\n".as_slice());
    assert!(rt;
        person.text.as_slice()
            == b"fresh.img: 16 cells, 2 used. #help lists the statements; ^D (end of input) leaves.
  not found: no user ANN
  A, B
  not found: OWNER sees no object T, or it has no column of that name

2 of 3 lines were refused or are no statement (exit status 1).
"
                .as_slice()
    );
    Ok(())
}
