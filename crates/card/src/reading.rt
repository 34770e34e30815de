// The commands that read through the cursor of a session (ISO/IEC 7816-7), and GET RESPONSE (ISO/IEC 7816-4).
ghost use Rattle.std.specs.Prelude.{◌≡◌, [], Option, Some, true, if◌then◌else◌, IfOk, IfSome, OnOk};
ghost use Rattle.eeprom.specs.Chip.{Becomes, RisesAtMost};
ghost use Rattle.eeprom.specs.Fault.{each_error};
ghost use Rattle.scql_base.specs.declared.cursor.Cursor as model;
ghost use Rattle.scql_model.specs.Cursors.{IsCursorOf};
ghost use Rattle.scql_model.specs.Database.{Database};
ghost use Rattle.scql_model.specs.Moves.{gave_more, move_of};
ghost use Rattle.scql_model.specs.Operations.{kind_of};
ghost use Rattle.scql_model.specs.ReadingCommands as commands;
ghost use Rattle.scql_model.specs.ReadingCommands.{or_stays};
ghost use Rattle.scql_model.specs.WellFormed.{IsWellFormed};
ghost use Rattle.cursor.specs.Moved as outcomes;
ghost use Rattle.db_read.specs.Answered.{given};
ghost use Rattle.db_read.specs.Reader.{read_so_far, ReadsFrom, ReadsOn};
ghost use Rattle.db_read.specs.Scan.{IsRightFor};
ghost use Rattle.db_read.specs.Searched.{octets_for_operation};
ghost use Rattle.card.specs.ReadCosts.{OperatesWithin};
ghost use Rattle.card.specs.Reading as specs;
ghost use Rattle.card.specs.Reading.{MovesSo, move_to};
ghost use Rattle.card.specs.Sessions.{reading_in};

use crate::reply::without_body;
use crate::session::Session;
use apdu::Reply;
use apdu_chain::{Le, Pending};
use db_read::{Motion, Reader, Scan, advance, declare, find_selected};
use eeprom::{Eeprom, EepromFault};
use scql_base::{Actor, Command, Copied, Operation, Row, StatusWord};

/// Whether an operation reads.
pub(crate) fn is_reading(operation: &Operation) -> bool
    ensures { result ≡ specs.is_reading (kind_of operation.now) }
{
    matches!(
        operation,
        Operation::DeclareCursor { .. }
            | Operation::OpenCursor
            | Operation::Next
            | Operation::Fetch
            | Operation::FetchNext
            | Operation::GetResponse
    )
}

/// Carries a reading command out for who acts on a session's channel: the answer and what the session reads then are those of
/// the model's move over the rows of a side.
pub(crate) fn read<B: Eeprom>(
    reader: &mut Reader<'_, B>,
    session: &mut Session,
    actor: Actor,
    command: &Command,
    reply: &mut Reply,
    row: &mut Row,
    scan: &mut Scan,
) -> Result<StatusWord, EepromFault>
    requires formed { IsWellFormed command.now }
    requires reads { specs.is_reading (kind_of command.now.operation) ≡ true }
    ensures moves { (db : Database) → ReadsFrom reader.old db → IfSome session.old.cursor (IsCursorOf db) → IsRightFor db actor scan.old session.old.cursor
        → IfOk result (λ word. MovesSo db actor command.now (reading_in session.old) (move_to reply.new.body word session.new.cursor session.new.pending)) }
    ensures octets_read { (db : Database) → ReadsFrom reader.old db → IfSome session.old.cursor (IsCursorOf db) → IsRightFor db actor scan.old session.old.cursor
        → OnOk result (OperatesWithin db actor command.now (reading_in session.old) (read_so_far reader.old) (read_so_far reader.new)) }
    ensures right { (db : Database) → ReadsFrom reader.old db → IsRightFor db actor scan.old session.old.cursor → IsRightFor db actor scan.new session.new.cursor }
    ensures user { session.new.user ≡ session.old.user }
    ensures reads { ReadsOn each_error reader.old reader.new result }
{
    let most = command.le.unwrap_or(Command::LARGEST_LE);
    let le = Le::new(most);
    match &command.operation {
        Operation::GetResponse => give_rest(reader, session, actor, le, reply),
        Operation::DeclareCursor {
            object,
            columns,
            conditions,
        } => {
            let cursor = &mut session.cursor;
            let word = declare(reader, actor, cursor, object.copy(), columns, conditions)?;
            scan.forget();
            Ok(settle(word, &mut session.pending, reply))
        }
        Operation::OpenCursor => {
            let word = advance(reader, actor, &mut session.cursor, Motion::Open, row, scan)?;
            Ok(settle(word, &mut session.pending, reply))
        }
        Operation::Next => {
            let word = advance(reader, actor, &mut session.cursor, Motion::Next, row, scan)?;
            Ok(settle(word, &mut session.pending, reply))
        }
        Operation::Fetch => {
            let motion = Motion::Fetch { le: most };
            let word = advance(reader, actor, &mut session.cursor, motion, row, scan)?;
            Ok(give(word, row, le, &mut session.pending, reply))
        }
        Operation::FetchNext => {
            let motion = Motion::FetchNext { le: most };
            let word = advance(reader, actor, &mut session.cursor, motion, row, scan)?;
            Ok(give(word, row, le, &mut session.pending, reply))
        }
        _ => unreachable!(),
    }
}

// GET RESPONSE: gives more of what is pending, where the cursor's object may be read still.
fn give_rest<B: Eeprom>(
    reader: &mut Reader<'_, B>,
    session: &mut Session,
    actor: Actor,
    le: Le,
    reply: &mut Reply,
) -> Result<StatusWord, EepromFault>
    ensures moves { (db : Database) → ReadsFrom reader.old db
        → IfOk result (λ word. move_of db actor (reading_in session.old) (commands.get_response le) ≡ move_to reply.new.body word session.new.cursor session.new.pending) }
    ensures octets_read { (db : Database) → ReadsFrom reader.old db
        → OnOk result (Becomes (RisesAtMost (octets_for_operation db actor session.old.cursor (commands.get_response le))) (read_so_far reader.old) (read_so_far reader.new)) }
    ensures cursor { session.new.cursor ≡ session.old.cursor }
    ensures user { session.new.user ≡ session.old.user }
    ensures reads { ReadsOn each_error reader.old reader.new result }
{
    without_body(reply);
    let Some(cursor) = &session.cursor else {
        return Ok(StatusWord::CONDITIONS_NOT_SATISFIED);
    };
    let mut object = None;
    match find_selected(reader, actor, cursor.object, &mut object) {
        Ok(()) => Ok(give_more(le, &mut session.pending, reply)),
        Err(stop) => stop.answer(),
    }
}

// The row that a fetch handed out is given as far as Le allows, and the rest is pending. Without a row the word stands alone.
fn give(word: StatusWord, row: &Row, le: Le, pending: &mut Pending, reply: &mut Reply) -> StatusWord
    ensures { (cursor : Option model.Cursor)
        → or_stays (record { cursor = cursor; pending = pending.old }) (given le word cursor row.now) ≡ move_to reply.new.body result cursor pending.new }
{
    if word.word != StatusWord::DONE.word {
        return settle(word, pending, reply);
    }
    prove!(row.len() <= Row::MOST);
    pending.start(row.octets(), le, reply);
    reply.word
}

// What is pending is given as far as Le allows, if anything is.
fn give_more(le: Le, pending: &mut Pending, reply: &mut Reply) -> StatusWord
    ensures { (c : model.Cursor)
        → or_stays (record { cursor = Some c; pending = pending.old }) (gave_more c le pending.old) ≡ move_to reply.new.body result (Some c) pending.new }
{
    without_body(reply);
    if pending.is_empty() {
        return StatusWord::CONDITIONS_NOT_SATISFIED;
    }
    pending.more(le, reply);
    reply.word
}

// The word of a move without a row stands alone. It drops what is pending, where it isn't a refusal.
fn settle(word: StatusWord, pending: &mut Pending, reply: &mut Reply) -> StatusWord
    ensures word { result ≡ word }
    ensures body { reply.new.body ≡ [] }
    ensures pending { pending.new ≡ (if outcomes.refuses word then pending.old else []) }
{
    without_body(reply);
    if word.word == StatusWord::DONE.word || word.word == StatusWord::END_REACHED.word {
        pending.forget();
    }
    word
}
