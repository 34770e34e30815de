// The destination of a copy: a transaction on channel 0, into which rows are put.
ghost use Rattle.std.specs.Prelude.{◌≡◌, ◌∷◌, IfSome, IsTrue, Some, true};
ghost use Rattle.scql_base.specs.declared.operation.Operation.TheVariants.{Insert};
ghost use Rattle.scql_model.specs.Machine.{Machine};
ghost use Rattle.scql_model.specs.Matching.{Values};
ghost use Rattle.scql_model.specs.ReadingCommands.{row_octets};
ghost use Rattle.scql_model.specs.Records.{is_row};
ghost use Rattle.script.specs.Commands as commands;
ghost use Rattle.card_link.specs.Link.{Answered, Holds, IsOneOf};
ghost use Rattle.planner.specs.Meaning.{answer_to};
ghost use Rattle.card_asking.specs.Calls.{HasGoneOn};
ghost use Rattle.table_copy.specs.Copying.{StaysAt};
ghost use Rattle.table_copy.specs.Filling.{IsFilling, IsInsertion, RollsBackSo, UnlessDestMute, done_by};
ghost use Rattle.table_copy.specs.Leaving.{ComesTo, DestLeaves};
ghost use Rattle.table_copy.specs.Pieces.{BeginsOver, CommitsOver, InsertsOver, MayPut};
ghost use Rattle.table_copy.specs.declared.copy_end.CopyEnd.TheVariants.{DestMute};

use crate::CopyEnd;
use apdu::Reply;
use card_asking::ask;
use card_link::CardLink;
use scql_base::{Command, Copied, Name, Operation, Row, StatusWord};

// An operation as a command of channel 0.
fn asking(operation: Operation) -> Command
    ensures { result ≡ commands.asking 0 operation }
{
    Command {
        channel: 0,
        operation,
        le: None,
    }
}

// Whether the destination did what it was asked.
fn done(word: StatusWord) -> Result<(), CopyEnd>
    ensures { result ≡ done_by word }
{
    if word.word == StatusWord::DONE.word {
        Ok(())
    } else {
        Err(CopyEnd::DestRefused { word })
    }
}

// Asks the destination for something. Each word but 9000 is a refusal.
fn put<L: CardLink>(dest: &mut L, command: &Command, reply: &mut Reply) -> Result<(), CopyEnd>
    requires { MayPut L.is_live command.now dest.old }
    ensures answers { (m : Machine) → L.is_at dest.old m
        → ComesTo (IsOneOf (L.mark dest.old) (m.committed ∷ (answer_to m command.now).commits)) L.chip (UnlessDestMute result (Answered L.is_at (answer_to m command.now) reply.new dest.new)) dest.old dest.new }
    ensures done { UnlessDestMute result (result ≡ done_by reply.new.word) }
    ensures leaves { DestLeaves L.is_live L.faults L.mark L.keeps L.goes_on result dest.old dest.new }
{
    match ask(dest, command, reply) {
        Ok(()) => done(reply.word),
        Err(_) => Err(CopyEnd::DestMute),
    }
}

/// BEGIN.
pub fn begin<L: CardLink>(dest: &mut L, reply: &mut Reply) -> Result<(), CopyEnd>
    requires live { IsTrue (L.is_live dest.old) }
    ensures { BeginsOver L.is_at L.is_live L.faults L.mark L.chip L.keeps L.goes_on result dest.old dest.new }
{
    put(dest, &asking(Operation::Begin), reply)
}

// INSERT of the row that these octets are, if they are one.
fn insertion(table: &Name, octets: &[u8]) -> Option<Command>
    ensures row { (row : Values) → octets.now ≡ row_octets row → is_row row ≡ true → result ≡ Some (commands.asking 0 (Insert table.now row)) }
    ensures inserts { IfSome result (IsInsertion table.now) }
{
    let row = Row::read(octets)?;
    let _ = table.octets();
    if row.len() == 0 {
        return None;
    }
    Some(asking(Operation::Insert {
        table: table.copy(),
        row,
    }))
}

/// INSERT of the row that these octets are. What is no row counts as refused by the source.
pub fn insert<L: CardLink>(
    dest: &mut L,
    table: &Name,
    octets: &[u8],
    reply: &mut Reply,
) -> Result<(), CopyEnd>
    requires live { IsTrue (L.is_live dest.old) }
    ensures { InsertsOver L.is_at L.is_live L.faults L.mark L.chip L.keeps L.goes_on table.now octets.now result dest.old dest.new }
{
    match insertion(table, octets) {
        Some(command) => put(dest, &command, reply),
        None => Err(CopyEnd::SourceRefused {
            word: StatusWord::WRONG_DATA,
        }),
    }
}

/// COMMIT.
pub fn commit<L: CardLink>(dest: &mut L, reply: &mut Reply) -> Result<(), CopyEnd>
    requires live { IsTrue (L.is_live dest.old) }
    ensures { CommitsOver L.is_at L.is_live L.faults L.mark L.chip L.keeps L.goes_on result dest.old dest.new }
{
    put(dest, &asking(Operation::Commit), reply)
}

/// ROLLBACK behind this end of the copy, unless the destination is mute. Only where it is mute then does its answer change anything.
pub fn roll_back<L: CardLink>(dest: &mut L, end: CopyEnd, reply: &mut Reply) -> CopyEnd
    requires live { (end ≡ DestMute → ⊥) → IsTrue (L.is_live dest.old) }
    ensures rolls { (d : Machine) → IsFilling L.is_at d dest.old → ComesTo (Holds (L.mark dest.old) d.committed) L.chip ((result ≡ DestMute → ⊥) → StaysAt L.is_at d dest.new) dest.old dest.new }
    ensures same { (result ≡ DestMute → ⊥) → result ≡ end }
    ensures mute { end ≡ DestMute → (result ≡ DestMute) × (dest.new ≡ dest.old) }
    ensures ends { (end ≡ DestMute → ⊥) → RollsBackSo L.is_live L.faults result dest.old dest.new }
    ensures rest { HasGoneOn L.mark L.keeps L.goes_on dest.old dest.new }
{
    if end == CopyEnd::DestMute {
        return end;
    }
    match ask(dest, &asking(Operation::Rollback), reply) {
        Ok(()) => end,
        Err(_) => CopyEnd::DestMute,
    }
}
