// What no clause says: that a line is answered before the next is looked at; and each call once.
ghost use Rattle.std.specs.Prelude.{List, ℕ, Option};

use crate::{InputEnd, Line, LineAnswerer, answer_lines, take_octets};
use arrayvec::ArrayVec;
use eeprom::MemSource;
use std::alloc::AllocError;
use taken_line::TakenLine;

// Keeps the lines that it answers, each with a line feed, and `-` for one that is too long. It stops in the line `stop`.
#[derive(Drop)]
struct Keeper {
    text: ArrayVec<u8, 64>,
}

impl Keeper {
    fn new() -> Keeper {
        Keeper {
            text: ArrayVec::new(),
        }
    }

    fn keep(&mut self, octets: &[u8]) {
        // A text that is full stays as it is.
        let _ = self.text.try_extend_from_slice(octets);
    }
}

impl LineAnswerer for Keeper {
    type Stop = AllocError;

    ghost is_ready = { λ _. Unit {0} };

    ghost answers = { λ _ _ _. Unit {0} };

    ghost stops = { λ _ _ _ _. Unit {0} };

    fn answer(&mut self, line: Option<TakenLine<'_>>) -> Result<(), AllocError> {
        match line {
            None => self.keep(b"-"),
            Some(line) if line.octets == b"stop".as_slice() => return Err(AllocError),
            Some(line) => self.keep(line.octets),
        }
        self.keep(b"\n");
        Ok(())
    }

    ghost none = { λ _ _. tt };

    ghost then = { λ _ _ _ _ _ _ _. tt };
}

#[test]
fn lines_are_answered_one_by_one(rt: HostRuntime) -> Result<(), AllocError> {
    let alloc = rt.alloc();
    let text = Vec::from_slice(alloc, b"one\n\ntwo\r\nlast")?;
    let mut source = MemSource::new(text, 3, Vec::new(alloc));
    let mut keeper = Keeper::new();
    assert_eq!(rt; answer_lines(&mut source, &mut keeper), InputEnd::Ended);
    assert_eq!(rt; keeper.text.as_slice(), b"one\n\ntwo\r\nlast\n".as_slice());

    let text = Vec::from_slice(alloc, b"one\nstop\ntwo\n")?;
    let mut source = MemSource::new(text, 64, Vec::new(alloc));
    let mut keeper = Keeper::new();
    assert_eq!(rt;
        answer_lines(&mut source, &mut keeper),
        InputEnd::Stopped(AllocError)
    );
    assert_eq!(rt; keeper.text.as_slice(), b"one\n".as_slice());

    let text = Vec::from_slice(alloc, b"one\ntwo\n")?;
    let mut source = MemSource::new(text, 5, vec![in alloc; 1]?);
    let mut keeper = Keeper::new();
    assert_eq!(rt; answer_lines(&mut source, &mut keeper), InputEnd::ReadFault);
    assert_eq!(rt; keeper.text.as_slice(), b"one\n".as_slice());
    Ok(())
}

#[test]
fn a_line_of_1001_octets_is_too_long(rt: HostRuntime) -> Result<(), AllocError> {
    let mut keeper = Keeper::new();
    let mut line = Line::new();
    assert_eq!(rt; take_octets(&mut keeper, &mut line, &[b'a'; 1000]), Ok(()));
    assert_eq!(rt; TakenLine::octets_of(line.taken()).is_some(), true);
    assert_eq!(rt; take_octets(&mut keeper, &mut line, b"a"), Ok(()));
    assert_eq!(rt; TakenLine::octets_of(line.taken()).is_some(), false);
    assert_eq!(rt; take_octets(&mut keeper, &mut line, b"\nb\n"), Ok(()));
    assert_eq!(rt; keeper.text.as_slice(), b"-\nb\n".as_slice());
    assert_eq!(rt; line.is_empty(), true);
    Ok(())
}
