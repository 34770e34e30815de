// Copies between two cards that answer by a script: how each ends, and what the destination was asked for.
ghost use Rattle.std.specs.Prelude.{◌≡◌, true, None};

use crate::{CopyEnd, copy};
use apdu::Reply;
use arrayvec::ArrayVec;
use card_link::{CardLink, FailingLink, Outcome, Recorder};
use person::{Person, Presence};
use scql_base::{Name, StatusWord};

// A card that answers by these words, the last one first, and then by 9000. Where octets are asked for it gives a row of one value. Nothing is told of it.
#[derive(Drop)]
struct Answering {
    words: ArrayVec<u16, 40>,
}

impl CardLink for Answering {
    ghost use Rattle.std.specs.Prelude.{None, true};
    ghost use Rattle.std.proofs.Common.{refl};

    ghost is_at = { λ _ _. ⊥ };

    ghost is_live = { λ _. true };

    ghost faults = { λ _. 0 };

    ghost mark = { λ _. 0 };

    ghost chip = { λ _. record { still = record { size = 0; mark = 0; given = None; sink_faults = 0 }; image = None; written = None; clock = 0; past = None } };

    ghost keeps = { λ _ _. Unit {0} };

    ghost goes_on = { λ _ _. Unit {0} };

    fn live(&self) -> bool {
        true
    }

    fn exchange(&mut self, command: &[u8], reply: &mut Reply) -> Outcome {
        reply.body.clear();
        reply.word = StatusWord {
            word: self.words.pop().unwrap_or(0x9000),
        };
        if command.len() == 5 && reply.word.word == 0x9000 {
            let _ = reply.body.try_extend_from_slice(&[1, b'A']);
        }
        Outcome::Replied
    }

    fn reset(&mut self) {}

    ghost marks = { λ _. refl };

    ghost opens = { λ _ _ at. absurd at };

    ghost keeps_same = { λ _. tt };

    ghost keeps_then = { λ _ _ _ _ _. tt };

    ghost goes_on_same = { λ _. tt };

    ghost goes_on_then = { λ _ _ _ _ _. tt };

    ghost valid = { λ _ _ at. absurd at };
}

// A person who reads all that is shown, as far as there is room.
#[derive(Drop)]
struct Screen {
    text: ArrayVec<u8, 64>,
}

impl Person for Screen {
    ghost use Rattle.std.specs.Prelude.{None, false};

    ghost shown = { λ _. None };

    ghost lost = { λ _. false };

    fn show(&mut self, text: &[u8]) {
        // A text that is full stays as it is.
        let _ = self.text.try_extend_from_slice(text);
    }

    fn presence(&self) -> Presence {
        Presence::Watching
    }

    fn show_title(&mut self) {
        self.show(b"");
    }
}

fn make_screen() -> Screen {
    Screen {
        text: ArrayVec::new(),
    }
}

// A card that answers so, the last word first, and is mute after so many commands.
fn card(words: &[u16], left: u16) -> Recorder<FailingLink<Answering>, 8> {
    let mut answering = Answering {
        words: ArrayVec::new(),
    };
    let _ = answering.words.try_extend_from_slice(words);
    Recorder::new(FailingLink::new(answering, left))
}

// Copies between two such cards: how it ends, and by which words the destination answered.
fn copied(
    source: &[u16],
    source_left: u16,
    dest: &[u16],
    dest_left: u16,
) -> (Option<CopyEnd>, ArrayVec<u16, 8>) {
    let mut source = card(source, source_left);
    let mut dest = card(dest, dest_left);
    let mut end = None;
    if let Some(name) = Name::read(b"T")
        && source.live()
        && dest.live()
    {
        end = Some(copy(&mut source, &mut dest, &name, &name, &mut make_screen()));
    }
    let mut heard = ArrayVec::new();
    let _ = heard.try_extend_from_slice(dest.words());
    (end, heard)
}

// One row, and the end behind it.
const ONE_ROW: &[u16] = &[0x6282, 0x9000, 0x9000, 0x9000];

#[test]
fn a_row_is_copied(rt: HostRuntime) {
    let (end, heard) = copied(ONE_ROW, 9, &[], 9);
    assert_eq!(rt; end, Some(CopyEnd::Copied { rows: 1 }));
    assert_eq!(rt; heard.as_slice(), [0x9000, 0x9000, 0x9000].as_slice());

    let (end, heard) = copied(&[0x6282, 0x9000], 9, &[], 9);
    assert_eq!(rt; end, Some(CopyEnd::Copied { rows: 0 }));
    assert_eq!(rt; heard.as_slice(), [0x9000, 0x9000].as_slice());
}

// What is shown while so many rows are copied.
fn shown(rows: usize) -> ArrayVec<u8, 64> {
    let mut words: ArrayVec<u16, 40> = ArrayVec::new();
    let _ = words.try_push(0x6282);
    for _ in 0..rows {
        let _ = words.try_push(0x9000);
    }
    let _ = words.try_extend_from_slice(&[0x9000, 0x9000]);
    let mut source = card(&words, 99);
    let mut dest = card(&[], 99);
    let mut screen = make_screen();
    if let Some(name) = Name::read(b"T")
        && source.live()
        && dest.live()
    {
        let _ = copy(&mut source, &mut dest, &name, &name, &mut screen);
    }
    screen.text
}

#[test]
fn a_person_is_shown_each_sixteen_rows(rt: HostRuntime) {
    assert_eq!(rt; shown(15).len(), 0);
    assert_eq!(rt; shown(16).as_slice(), b"\rcopied 16\n".as_slice());
    assert_eq!(rt;
        shown(33).as_slice(),
        b"\rcopied 16\rcopied 32\n".as_slice()
    );
}

#[test]
fn a_source_that_refuses_first_leaves_the_destination_alone(rt: HostRuntime) {
    let (end, heard) = copied(&[0x6A88], 9, &[], 9);
    assert_eq!(rt;
        end,
        Some(CopyEnd::SourceRefused {
            word: StatusWord::NOT_FOUND
        })
    );
    assert_eq!(rt; heard.len(), 0);
}

#[test]
fn what_is_refused_is_rolled_back(rt: HostRuntime) {
    let (end, heard) = copied(ONE_ROW, 9, &[0x6985], 9);
    assert_eq!(rt;
        end,
        Some(CopyEnd::DestRefused {
            word: StatusWord { word: 0x6985 }
        })
    );
    assert_eq!(rt; heard.as_slice(), [0x6985].as_slice());

    let (end, heard) = copied(ONE_ROW, 9, &[0x6985, 0x6A84, 0x9000], 9);
    assert_eq!(rt;
        end,
        Some(CopyEnd::DestRefused {
            word: StatusWord { word: 0x6A84 }
        })
    );
    assert_eq!(rt; heard.as_slice(), [0x9000, 0x6A84, 0x6985].as_slice());
}

#[test]
fn a_mute_card_ends_a_copy(rt: HostRuntime) {
    let (end, heard) = copied(ONE_ROW, 3, &[], 9);
    assert_eq!(rt; end, Some(CopyEnd::SourceMute));
    assert_eq!(rt; heard.as_slice(), [0x9000, 0x9000, 0x9000].as_slice());

    let (end, _) = copied(ONE_ROW, 9, &[], 2);
    assert_eq!(rt; end, Some(CopyEnd::DestMute));

    let (end, _) = copied(ONE_ROW, 3, &[], 2);
    assert_eq!(rt; end, Some(CopyEnd::DestMute));
}
