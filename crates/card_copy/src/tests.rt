// Copies between cards in files, with each write to the destination cut short in turn.
ghost use Rattle.std.specs.Prelude.{◌≡◌, IfOk, IsTrue, None};
ghost use Rattle.scql_model.specs.Machine.{Machine};

use apdu::Reply;
use arrayvec::ArrayVec;
use card::{Card, SlotCard};
use card_link::CardLink;
use copy_run::{CopyStatus, run_copy};
use eeprom::{CutBench, Outlet, SinkFault};
use file_bench::FileBench;
use file_card::{card_in, open_file};
use migrate::migrate;
use person::Nobody;
use program::{Ending, ProgramEnd, Status};
use reader_rack::Rack;
use scql_base::{Name, StatusWord};
use std::alloc::AllocError;
use std::fs;
use table_copy::{CopyEnd, copy};
use taken_line::TakenLine;

// What was printed, as far as there is room.
#[derive(Drop)]
struct Page {
    text: ArrayVec<u8, 256>,
}

impl Page {
    fn new() -> Page {
        Page {
            text: ArrayVec::new(),
        }
    }
}

impl Outlet for Page {
    ghost use Rattle.std.specs.Prelude.{None};

    ghost given = { λ _. None };

    ghost sink_faults = { λ _. 0 };

    ghost leaves = { λ _ _. Unit {0} };

    fn give(&mut self, octets: &[u8]) -> Result<(), SinkFault> {
        // A text that is full stays as it is.
        let _ = self.text.try_extend_from_slice(octets);
        Ok(())
    }
}

// The card that a file has where its writes are cut short.
fn cut_card_in(
    rt: &HostRuntime,
    mut bench: CutBench<FileBench<HostRuntime>>,
) -> Result<Box<SlotCard<CutBench<FileBench<HostRuntime>>>>, ProgramEnd>
    ensures live { IfOk result (λ card. IsTrue (⟦<SlotCard<CutBench<FileBench<HostRuntime>>> as CardLink>⟧.is_live card.value)) }
    ensures closed { IfOk result (λ card. (m : Machine) → ⟦<SlotCard<CutBench<FileBench<HostRuntime>>> as CardLink>⟧.is_at card.value m → m.transaction ≡ None) }
{
    match Card::open(rt.alloc(), &mut bench) {
        Ok(card) => cut_boxed(rt, SlotCard::new(card, bench)),
        Err(_) => Err(Ending::Run(Status::Eeprom).into()),
    }
}

fn cut_boxed(
    rt: &HostRuntime,
    card: SlotCard<CutBench<FileBench<HostRuntime>>>,
) -> Result<Box<SlotCard<CutBench<FileBench<HostRuntime>>>>, ProgramEnd>
    ensures { IfOk result (λ boxed. boxed.value ≡ card) }
{
    match Box::new(rt.alloc(), card) {
        Ok(boxed) => Ok(boxed),
        Err(_) => Err(Ending::Run(Status::NoMemory).into()),
    }
}

// Makes a card in a file, which is made where it is missing.
fn make_card(rt: &HostRuntime, path: &str) -> Result<(), ProgramEnd> {
    let mut bench = FileBench::open(rt.clone()?, path, true).map_err(Ending::from)?;
    let _ = Card::format(&mut bench, 64);
    Ok(())
}

// What is printed to lines on the card in a file.
fn printed(rt: &HostRuntime, path: &str, lines: &[&[u8]]) -> Result<ArrayVec<u8, 256>, ProgramEnd> {
    let card = card_in(rt, 0, open_file(rt, 0, path)?)?;
    let mut rack = Rack::new(Page::new());
    // The reader holds no link yet.
    let _ = rack.insert(1, card);
    for line in lines {
        if let Some(line) = TakenLine::of(line) {
            let _ = rack.line(line);
        }
    }
    let mut text = ArrayVec::new();
    let _ = text.try_extend_from_slice(&rack.outlet().text);
    Ok(text)
}

// A copy in which so many writes to the destination are passed on, and the next one is cut short.
fn cut_copy(rt: &HostRuntime, left: u16, fill: u8) -> Result<CopyStatus, ProgramEnd> {
    let mut words = Vec::new(rt.alloc());
    for word in ["ANN", "B1", "OWNER", "COPY"] {
        let word = String::from_str(rt.alloc(), word)?;
        words.push(word).map_err(AllocError::from)?;
    }
    let source = card_in(rt, 0, open_file(rt, 0, "from.card")?)?;
    let dest = open_file(rt, 1, "to.card")?;
    let dest = cut_card_in(rt, CutBench::new(dest, left, fill))?;
    let mut rack = Rack::new(Page::new());
    // Neither reader holds a link yet.
    let _ = rack.insert(1, source);
    let _ = rack.insert(2, dest);
    Ok(run_copy(&words, &mut rack, &mut Nobody))
}

#[test]
fn a_copy_that_is_cut_short_is_whole_or_nothing(rt: HostRuntime) -> Result<(), ProgramEnd> {
    make_card(&rt, "from.card")?;
    let lines: &[&[u8]] = &[
        b"PRESENT OWNER",
        b"CREATE TABLE ITEM (NAME, PLACE, QTY)",
        b"INSERT INTO ITEM VALUES ('bolt', 'B1', '0040')",
        b"INSERT INTO ITEM VALUES ('cap', 'A2', '0007')",
        b"INSERT INTO ITEM VALUES ('rod', 'B1', '0003')",
        b"INSERT INTO ITEM VALUES ('it''s', 'B1', '0050')",
        b"CREATE VIEW B1 AS SELECT NAME, QTY FROM ITEM WHERE PLACE = 'B1' AND QTY >= '0040'",
        b"CREATE USER ANN DBBU",
        b"GRANT SELECT ON B1 TO ANN",
    ];
    assert_eq!(rt;
        printed(&rt, "from.card", lines)?.as_slice(),
        b"ok\nok\nok\nok\nok\nok\nok\nok\nok\n".as_slice()
    );
    for fill in [0x00, 0xFF, 0x5A] {
        let mut ended = CopyStatus::Mute;
        for left in 0..200 {
            if ended == CopyStatus::Mute {
                make_card(&rt, "to.card")?;
                let made: &[&[u8]] = &[b"PRESENT OWNER", b"CREATE TABLE COPY (NAME, QTY)"];
                assert_eq!(rt;
                    printed(&rt, "to.card", made)?.as_slice(),
                    b"ok\nok\n".as_slice()
                );
                ended = cut_copy(&rt, left, fill)?;
                let read: &[&[u8]] = &[b"PRESENT OWNER", b"SELECT QTY FROM COPY"];
                let rows = printed(&rt, "to.card", read)?;
                let all = rows.as_slice() == b"ok\n'0040'\n'0050'\nrows 2\n".as_slice();
                assert!(rt; all || rows.as_slice() == b"ok\nrows 0\n".as_slice());
                assert!(rt; all || ended == CopyStatus::Mute);
            }
        }
        assert_eq!(rt; ended, CopyStatus::Done);
    }
    // Files that can't be removed stay.
    let _ = fs::remove_file(&rt, "from.card");
    let _ = fs::remove_file(&rt, "to.card");
    Ok(())
}

// The sizes of rows at the edges of one to five parts of an INSERT into W, whose data field has two octets more, and some between.
const SIZES: [usize; 13] = [
    6, 253, 254, 256, 508, 509, 512, 763, 764, 768, 1018, 1019, 1020,
];

// Makes a card of long rows in a file, with a table W.
fn make_wide_card(rt: &HostRuntime, path: &str) -> Result<(), ProgramEnd> {
    let mut bench = FileBench::open(rt.clone()?, path, true).map_err(Ending::from)?;
    let _ = Card::format(&mut bench, 2048);
    let _ = migrate(&mut bench);
    Ok(())
}

// The word by which a card answers a command.
fn answer_of<L: CardLink>(link: &mut L, command: &[u8]) -> u16 {
    let mut reply = Reply {
        body: ArrayVec::new(),
        word: StatusWord::DONE,
    };
    if link.live() {
        let _ = link.exchange(command, &mut reply);
    }
    reply.word.word
}

// The data field of an INSERT into W of a row of so many octets, which has six values.
fn field_of(size: usize) -> ArrayVec<u8, 1275> {
    let mut field = ArrayVec::new();
    let _ = field.try_extend_from_slice(b"\x01W");
    let mut left = size.saturating_sub(6);
    for _ in 0..6 {
        let length = left.min(200);
        left = left.saturating_sub(length);
        let _ = field.try_push(u8::try_from(length).unwrap_or(0));
        for _ in 0..length {
            let _ = field.try_push(b'a');
        }
    }
    field
}

// Inserts a row of so many octets into W, in parts of 255 octets, and tells the word by which the last part is answered.
fn insert_row<L: CardLink>(link: &mut L, size: usize) -> u16 {
    let field = field_of(size);
    let last = field.len().saturating_sub(1) / 255;
    let mut word = 0;
    for (place, part) in field.as_slice().chunks(255).enumerate() {
        let class = if place == last { 0x00 } else { 0x10 };
        let length = u8::try_from(part.len()).unwrap_or(0);
        let mut command: ArrayVec<u8, 260> = ArrayVec::new();
        let _ = command.try_extend_from_slice(&[class, 0x10, 0x00, 0x8C, length]);
        let _ = command.try_extend_from_slice(part);
        word = answer_of(link, &command);
    }
    word
}

// Presents OWNER.
fn present_owner<L: CardLink>(link: &mut L) -> u16 {
    answer_of(link, b"\x00\x14\x00\x80\x06\x05OWNER")
}

// Fills W of one card with rows of these sizes, and copies it to the other. It tells how the copy ended, and whether all else was done.
fn copy_wide(rt: &HostRuntime) -> Result<(Option<CopyEnd>, bool), ProgramEnd> {
    let mut source = card_in(rt, 0, open_file(rt, 0, "wide.card")?)?;
    let mut dest = card_in(rt, 1, open_file(rt, 1, "copy.card")?)?;
    let source = &mut *source;
    let dest = &mut *dest;
    let mut fine = present_owner(source) == 0x9000 && present_owner(dest) == 0x9000;
    for size in SIZES {
        fine = fine && insert_row(source, size) == 0x9000;
    }
    let mut end = None;
    if let Some(name) = Name::read(b"W")
        && source.live()
        && dest.live()
    {
        end = Some(copy(source, dest, &name, &name, &mut Nobody));
    }
    Ok((end, fine))
}

#[test]
fn rows_of_one_to_five_parts_are_copied(rt: HostRuntime) -> Result<(), ProgramEnd> {
    let made: &[&[u8]] = &[b"PRESENT OWNER", b"CREATE TABLE W (A, B, C, D, E, F)"];
    for path in ["wide.card", "copy.card"] {
        make_wide_card(&rt, path)?;
        assert_eq!(rt;
            printed(&rt, path, made)?.as_slice(),
            b"ok\nok\n".as_slice()
        );
    }
    let (end, fine) = copy_wide(&rt)?;
    assert!(rt; fine);
    assert_eq!(rt; end, Some(CopyEnd::Copied { rows: 13 }));
    let read: &[&[u8]] = &[b"PRESENT OWNER", b"SELECT F FROM W"];
    let rows = printed(&rt, "wide.card", read)?;
    assert_eq!(rt;
        printed(&rt, "copy.card", read)?.as_slice(),
        rows.as_slice()
    );
    // Files that can't be removed stay.
    let _ = fs::remove_file(&rt, "wide.card");
    let _ = fs::remove_file(&rt, "copy.card");
    Ok(())
}
