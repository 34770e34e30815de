// The row that a cursor reaches.
ghost use Rattle.std.specs.Prelude.{◌≡◌, Ok, Err, IfOk, IfSome, MatchOption, MatchResult};
ghost use Rattle.std.specs.List.{list_all};
ghost use Rattle.eeprom.specs.Fault.{each_error};
ghost use Rattle.eeprom.specs.Frame.{Reads};
ghost use Rattle.record_store.specs.Held.{IsOver};
ghost use Rattle.record_store.specs.declared.side.Side.TheVariants.{Working};
ghost use Rattle.scql_base.specs.Words.{conditions_not_satisfied};
ghost use Rattle.scql_base.specs.declared.words.Actor as model;
ghost use Rattle.scql_model.specs.Database.{Database, object_stamped};
ghost use Rattle.scql_model.specs.Moves as moves;
ghost use Rattle.scql_model.specs.Writing.{written_through};
ghost use Rattle.privilege_table.specs.Rights.{privilege_bit};
ghost use Rattle.record_table.specs.Asking.{Asks, IsStopOf};
ghost use Rattle.record_table.specs.Making.{IsHeld, is_stop_fault};
ghost use Rattle.row_table.specs.Tables.{Stand};
ghost use Rattle.search_cond.specs.Bound.{passes};
ghost use Rattle.db_read.specs.Reader.{ReadsFrom, ReadsOn};
ghost use Rattle.db_read.specs.Scan.{IsRight, found_in};
ghost use Rattle.db_write.specs.Reached.{FindsRow, HasTable, IsChosen, IsInSlot, IsWritten, is_reached};
ghost use Rattle.db_write.specs.Reached as reached;

use db_read::{Choice, Reader, RowRoom, is_table_or_view, resolve, row_in};
use eeprom::{Eeprom, EepromFault};
use object_table::find_stamp_into;
use privilege_table::{Privilege, rights_on};
use record_store::{Side, SideReader, Store};
use record_table::{Stop, refused};
use row_table::Tables;
use scql_base::{Actor, Cursor, Place, Row, RowRecord, StatusWord};
use search_cond::{Bound, bind_into, meets_each};

/// The cursor, if it was opened.
pub(crate) fn opened(cursor: &Option<Cursor>) -> Option<&Cursor>
    ensures { MatchOption result (moves.opened cursor.now ≡ Err conditions_not_satisfied) (λ held. moves.opened cursor.now ≡ Ok held.now) }
{
    let held = cursor.as_ref()?;
    if is_opened(held.place) {
        Some(held)
    } else {
        None
    }
}

fn is_opened(place: Place) -> bool
    ensures { result ≡ moves.is_opened place }
{
    match place {
        Place::NotOpen => false,
        Place::At { .. } | Place::End => true,
    }
}

/// Finds the table or view whose rows the actor may change through a cursor, or the first refusal. It stands in the choice afterwards: where nothing was
/// found yet it is looked for, and else it is there.
pub(crate) fn find_written<B: Eeprom>(
    store: &Store,
    bench: &mut B,
    actor: Actor,
    cursor: &Cursor,
    privilege: Privilege,
    is_found: &mut bool,
    choice: &mut Choice,
) -> Result<(), Stop>
    requires over { IsOver store.now (B.chip bench.old) }
    requires right { (db : Database) → IsHeld store.now Working (B.chip bench.old) db → IsRight db actor (found_in is_found.old choice.old) cursor.now }
    ensures written { (db : Database) → IsHeld store.now Working (B.chip bench.old) db
        → MatchResult result (λ _. IsWritten db actor (privilege_bit privilege) cursor.now is_found.new choice.new) (IsStopOf (written_through db actor (privilege_bit privilege) cursor.now)) }
    ensures same { found_in is_found.new choice.new ≡ found_in is_found.old choice.old }
    ensures frame { Reads is_stop_fault B.chip B.faults bench.old bench.new result }
{
    let mut reader = SideReader {
        store,
        bench,
        side: Side::Working,
    };
    find_object(&mut reader, cursor, is_found, choice)?;
    let Some(object) = &choice.object else {
        return refused(StatusWord::NOT_FOUND);
    };
    let rights = rights_on(&mut reader, actor, object)?;
    if !rights.see() {
        return refused(StatusWord::NOT_FOUND);
    }
    if !is_table_or_view(&object.kind) {
        return refused(StatusWord::CONDITIONS_NOT_SATISFIED);
    }
    if !rights.have(privilege) {
        return refused(StatusWord::SECURITY_NOT_SATISFIED);
    }
    Ok(())
}

// Finds the object of a cursor, where nothing was found yet.
fn find_object<B: Eeprom>(
    reader: &mut SideReader<'_, '_, B>,
    cursor: &Cursor,
    is_found: &mut bool,
    choice: &mut Choice,
) -> Result<(), EepromFault>
    ensures asks { Asks each_error (λ db result. (actor : model.Actor) → IsRight db actor (found_in is_found.old choice.old) cursor.now
        → IfOk result (λ _. choice.new.object ≡ object_stamped db.objects cursor.now.object)) reader.old reader.new result }
    ensures same { found_in is_found.new choice.new ≡ found_in is_found.old choice.old }
{
    if *is_found && choice.object.is_some() {
        return Ok(());
    }
    *is_found = false;
    find_stamp_into(reader, cursor.object, &mut choice.object)?;
    Ok(())
}

/// The slot of the row at which a cursor on the chosen object stands, where the row is among the cursor's rows. It is read into a place.
pub(crate) fn find_row<'a, B: Eeprom>(
    tables: &'a Tables,
    bench: &'a mut B,
    cursor: &Cursor,
    is_found: bool,
    choice: &mut Choice,
    room: &mut RowRoom,
) -> Result<Option<u16>, EepromFault>
    requires stand { Stand tables.now (B.chip bench.old) }
    requires chosen { (db : Database) → IsHeld tables.now.store Working (B.chip bench.old) db → IsChosen db cursor.now is_found choice.old }
    ensures at { IfOk result (λ slot. IfSome slot (IsInSlot tables.now (B.chip bench.old) room.new.row)) }
    ensures finds { (db : Database) → IsHeld tables.now.store Working (B.chip bench.old) db → IfOk result (FindsRow db cursor.now choice.new.resolved.all room.new.row) }
    ensures same { found_in is_found choice.new ≡ found_in is_found choice.old }
    ensures frame { Reads each_error B.chip B.faults bench.old bench.new result }
{
    let Some(stamp) = stamp_at(cursor.place) else {
        return Ok(None);
    };
    let mut reader = Reader {
        store: &tables.store,
        index: &tables.index,
        bench,
        side: Side::Working,
    };
    if !find_table(&mut reader, cursor, is_found, choice)? {
        return Ok(None);
    }
    let Tables { store, index } = tables;
    let table = choice.resolved.table;
    let Some(slot) = index.find(store, Side::Working, table, stamp, room.near) else {
        return Ok(None);
    };
    if !row_in(&mut reader, slot, room)? {
        return Ok(None);
    }
    if !is_row_reached(choice, &room.row) {
        return Ok(None);
    }
    Ok(Some(slot))
}

// Finds the table under the chosen object, and binds the conditions of a cursor to its columns, where that wasn't found yet; and answers whether they are bound.
fn find_table<B: Eeprom>(
    reader: &mut Reader<'_, B>,
    cursor: &Cursor,
    is_found: bool,
    choice: &mut Choice,
) -> Result<bool, EepromFault>
    ensures found { (db : Database) → ReadsFrom reader.old db → IsChosen db cursor.now is_found choice.old → IfOk result (HasTable db cursor.now choice.new) }
    ensures same { found_in is_found choice.new ≡ found_in is_found choice.old }
    ensures reads { ReadsOn each_error reader.old reader.new result }
{
    if is_found {
        return Ok(true);
    }
    let Choice {
        object,
        resolved,
        conditions,
        ..
    } = choice;
    let Some(object) = object else {
        return Ok(false);
    };
    resolve(reader, object, resolved)?;
    Ok(bind_into(&resolved.all, &cursor.conditions, conditions).is_ok())
}

// The stamp of the row at which a cursor stands.
fn stamp_at(place: Place) -> Option<u32>
    ensures { result ≡ reached.stamp_at place }
{
    match place {
        Place::At { stamp } => Some(stamp),
        Place::NotOpen | Place::End => None,
    }
}

// Whether a row is one of the chosen table, and meets the cursor's conditions and those of each view.
fn is_row_reached(choice: &Choice, row: &RowRecord) -> bool
    ensures { result ≡ is_reached choice.now.resolved.table choice.now.resolved.filters.items choice.now.conditions row.now }
{
    row.table == choice.resolved.table
        && meets_each(&row.row, choice.conditions.as_slice())
        && passes_each(choice.resolved.filters.as_slice(), &row.row)
}

fn passes_each(filters: &[Bound], row: &Row) -> bool
    ensures { result ≡ list_all (passes row.now) filters.now }
{
    filters.iter().all(|filter| filter.matches(row))
}
