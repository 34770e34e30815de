// The reading commands: what each answers, and what it makes of a session's cursor and of what is left of an answer.
ghost use Rattle.std.specs.Prelude.{◌≡◌, Some, IfSome, option_map};
ghost use Rattle.scql_base.specs.Words.{wrong_le};
ghost use Rattle.scql_base.specs.declared.cursor.Cursor as cursors;
ghost use Rattle.scql_model.specs.Cursors.{IsCursorOf};
ghost use Rattle.scql_model.specs.Moves as moves;
ghost use Rattle.scql_model.specs.ReadingCommands as commands;
ghost use Rattle.plain_database.specs.Sought.{row_shown};
ghost use Rattle.plain_reading.specs.Commands.{command_seen};
ghost use Rattle.plain_database.specs.Effects.{ended};
ghost use Rattle.plain_reading.specs.Outcomes.{AnswersAsMeant, given};

use crate::found::{find_row, row_behind};
use crate::readable::{opened, readable};
use crate::texts::columns_of;
use crate::{Reading, ReadingCommand};
use apdu::Reply;
use apdu_chain::Le;
use plain_database::{Privilege, ShownRow, Sought, ValidDatabase, are_named_among, wanted_of};
use scql_base::{Actor, Conditions, Copied, Cursor, Name, NameList, Place, Row, StatusWord};

/// Carries out a reading command for an actor, or refuses it.
pub fn read(
    database: &ValidDatabase<'_>,
    actor: Actor,
    reading: &mut Reading,
    command: &ReadingCommand<'_>,
    reply: &mut Reply,
) -> Result<(), StatusWord>
    requires { IfSome reading.old.cursor (IsCursorOf database.now) }
    ensures { AnswersAsMeant reading.old reading.new reply.new result (moves.moved database.now actor reading.old (command_seen command.now)) }
{
    match command {
        ReadingCommand::Declare {
            object,
            columns,
            conditions,
        } => declare(database, actor, reading, object, columns, conditions, reply),
        ReadingCommand::OpenCursor => open_cursor(database, actor, reading, reply),
        ReadingCommand::Next => next(database, actor, reading, reply),
        ReadingCommand::Fetch { le } => fetch(database, actor, reading, *le, reply),
        ReadingCommand::FetchNext { le } => fetch_next(database, actor, reading, *le, reply),
        ReadingCommand::GetResponse { le } => get_response(database, actor, reading, *le, reply),
    }
}

// DECLARE CURSOR: the session has a new cursor, which isn't opened.
fn declare(
    database: &ValidDatabase<'_>,
    actor: Actor,
    reading: &mut Reading,
    object: &Name,
    columns: &NameList,
    conditions: &Conditions,
    reply: &mut Reply,
) -> Result<(), StatusWord>
    ensures { AnswersAsMeant reading.old reading.new reply.new result (moves.moved database.now actor reading.old (commands.declare object.now columns.now conditions.now)) }
{
    let records = database.database();
    let Some(object) = records.seen_named(actor, object) else {
        return Err(StatusWord::NOT_FOUND);
    };
    if !records.holds(actor, object, Privilege::Select) {
        return Err(StatusWord::SECURITY_NOT_SATISFIED);
    }
    let all = columns_of(&object.kind);
    if !are_named_among(&all, columns, conditions) {
        return Err(StatusWord::NOT_FOUND);
    }
    reading.cursor = Some(Cursor {
        object: object.stamp,
        columns: wanted_of(&all, columns).copy(),
        conditions: conditions.copy(),
        place: Place::NotOpen,
    });
    reading.stand_at(Place::NotOpen, StatusWord::DONE, reply);
    Ok(())
}

// OPEN: the cursor goes to the first row, or to its end.
fn open_cursor(
    database: &ValidDatabase<'_>,
    actor: Actor,
    reading: &mut Reading,
    reply: &mut Reply,
) -> Result<(), StatusWord>
    requires { IfSome reading.old.cursor (IsCursorOf database.now) }
    ensures { AnswersAsMeant reading.old reading.new reply.new result (moves.moved database.now actor reading.old commands.open_cursor) }
{
    let Some(cursor) = &reading.cursor else {
        return Err(StatusWord::CONDITIONS_NOT_SATISFIED);
    };
    let object = readable(database, actor, cursor)?;
    let found = find_row(database, object, cursor, Sought::First);
    go_to(reading, &found, reply);
    Ok(())
}

// NEXT: the cursor goes to the next row, or to its end.
fn next(
    database: &ValidDatabase<'_>,
    actor: Actor,
    reading: &mut Reading,
    reply: &mut Reply,
) -> Result<(), StatusWord>
    requires { IfSome reading.old.cursor (IsCursorOf database.now) }
    ensures { AnswersAsMeant reading.old reading.new reply.new result (moves.moved database.now actor reading.old commands.next) }
{
    let cursor = opened(&reading.cursor)?;
    let object = readable(database, actor, cursor)?;
    let found = row_behind(database, object, cursor);
    go_to(reading, &found, reply);
    Ok(())
}

// FETCH: the row at the cursor's place is given.
fn fetch(
    database: &ValidDatabase<'_>,
    actor: Actor,
    reading: &mut Reading,
    le: Le,
    reply: &mut Reply,
) -> Result<(), StatusWord>
    requires { IfSome reading.old.cursor (IsCursorOf database.now) }
    ensures { AnswersAsMeant reading.old reading.new reply.new result (moves.moved database.now actor reading.old (commands.fetch le)) }
{
    let cursor = opened(&reading.cursor)?;
    let object = readable(database, actor, cursor)?;
    match cursor.place {
        Place::NotOpen => Err(StatusWord::CONDITIONS_NOT_SATISFIED),
        Place::End => {
            reading.stand_at(Place::End, StatusWord::END_REACHED, reply);
            Ok(())
        }
        Place::At { stamp } => {
            let Some(found) = find_row(database, object, cursor, Sought::At { stamp }) else {
                return Err(StatusWord::RECORD_NOT_FOUND);
            };
            give_row(reading, Place::At { stamp }, &found.values, le, reply)
        }
    }
}

// FETCH NEXT: the cursor goes to the next row and gives it, or goes to its end.
fn fetch_next(
    database: &ValidDatabase<'_>,
    actor: Actor,
    reading: &mut Reading,
    le: Le,
    reply: &mut Reply,
) -> Result<(), StatusWord>
    requires { IfSome reading.old.cursor (IsCursorOf database.now) }
    ensures { AnswersAsMeant reading.old reading.new reply.new result (moves.moved database.now actor reading.old (commands.fetch_next le)) }
{
    let cursor = opened(&reading.cursor)?;
    let object = readable(database, actor, cursor)?;
    match row_behind(database, object, cursor) {
        Some(found) => {
            let place = Place::At { stamp: found.stamp };
            give_row(reading, place, &found.values, le, reply)
        }
        None => {
            reading.stand_at(Place::End, StatusWord::END_REACHED, reply);
            Ok(())
        }
    }
}

// GET RESPONSE: what is pending is given.
fn get_response(
    database: &ValidDatabase<'_>,
    actor: Actor,
    reading: &mut Reading,
    le: Le,
    reply: &mut Reply,
) -> Result<(), StatusWord>
    ensures { AnswersAsMeant reading.old reading.new reply.new result (moves.moved database.now actor reading.old (commands.get_response le)) }
{
    let Some(cursor) = &reading.cursor else {
        return Err(StatusWord::CONDITIONS_NOT_SATISFIED);
    };
    let _object = readable(database, actor, cursor)?;
    if reading.pending.is_empty() {
        return Err(StatusWord::CONDITIONS_NOT_SATISFIED);
    }
    reading.pending.more(le, reply);
    Ok(())
}

// The cursor goes to the row that was found, or to its end.
fn go_to(reading: &mut Reading, found: &Option<ShownRow>, reply: &mut Reply)
    ensures { (c : cursors.Cursor) → reading.old.cursor ≡ Some c → record { reply = reply.new; after = reading.new } ≡ moves.went_to c (option_map row_shown found.now) }
{
    match found {
        Some(row) => {
            let stamp = row.stamp;
            reading.stand_at(Place::At { stamp }, StatusWord::DONE, reply);
        }
        None => reading.stand_at(Place::End, StatusWord::END_REACHED, reply),
    }
}

// The cursor goes to the place of a row and gives the row, where Le allows it.
fn give_row(
    reading: &mut Reading,
    place: Place,
    values: &Row,
    le: Le,
    reply: &mut Reply,
) -> Result<(), StatusWord>
    ensures { (c : cursors.Cursor) → reading.old.cursor ≡ Some c → AnswersAsMeant reading.old reading.new reply.new result (given place c le values.now) }
{
    prove!(values.len() <= Row::MOST);
    let octets = values.octets();
    fit(le, octets)?;
    reading.give(place, le, octets, reply);
    Ok(())
}

// Octets that Le allows as a whole; with Le 256 an answer may be longer, and is given in parts.
fn fit(le: Le, octets: &[u8]) -> Result<(), StatusWord>
    ensures { ended result octets.now ≡ commands.fitting le octets.now }
{
    let most = le.octets();
    if octets.len() <= usize::from(most) || most == 256 {
        Ok(())
    } else {
        Err(wrong_le(octets.len()))
    }
}

// The word that says how many octets there are, or that there are 256 or more.
fn wrong_le(size: usize) -> StatusWord
    ensures { result ≡ wrong_le size }
{
    let available = if size < 256 { size as u16 } else { 0 };
    StatusWord {
        word: 0x6C00 + available,
    }
}
