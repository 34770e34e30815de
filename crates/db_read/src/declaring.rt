// DECLARE CURSOR.
ghost use Rattle.std.specs.Prelude.{◌≡◌, ◌*◌, Some, Ok, IfOk, IfErr, IsTrue, OnErr, List, ℕ};
ghost use Rattle.std.specs.List.{list_all, list_any};
ghost use Rattle.std.specs.Str.{bytes_eq};
ghost use Rattle.eeprom.specs.Chip.{Becomes, RisesAtMost};
ghost use Rattle.eeprom.specs.Fault.{each_error};
ghost use Rattle.eeprom.specs.StoreOf.{cell_size};
ghost use Rattle.scql_base.specs.Words.{done};
ghost use Rattle.scql_base.specs.declared.cursor.Place.TheVariants.{NotOpen};
ghost use Rattle.scql_model.specs.Database.{Database, are_among, are_named_among};
ghost use Rattle.scql_model.specs.Machine.{Reading};
ghost use Rattle.scql_model.specs.Moves.{moved, moved_to};
ghost use Rattle.scql_model.specs.ReadingCommands as commands;
ghost use Rattle.scql_model.specs.ReadingCommands.{wanted_of};
ghost use Rattle.record_table.specs.Making.{is_stop_fault};
ghost use Rattle.cursor.specs.Moved.{refuses};
ghost use Rattle.db_read.specs.Answered.{Stops, WhereRead, answered};
ghost use Rattle.db_read.specs.Reader.{read_so_far, ReadsFrom, ReadsOn};
ghost use Rattle.db_read.specs.Searched.{cells_named, octets_for_operation};

use crate::columns::columns_of;
use crate::finding::find_named;
use crate::reader::Reader;
use eeprom::{Eeprom, EepromFault};
use record_table::{Stop, refused};
use scql_base::{Actor, Conditions, Copied, Cursor, Name, NameList, Place, StatusWord};

/// DECLARE CURSOR: the cursor is on an object, shows these columns or all, and chooses rows by these conditions.
pub fn declare<B: Eeprom>(
    reader: &mut Reader<'_, B>,
    actor: Actor,
    cursor: &mut Option<Cursor>,
    object: Name,
    columns: &NameList,
    conditions: &Conditions,
) -> Result<StatusWord, EepromFault>
    ensures moved { (db : Database) → ReadsFrom reader.old db → (pending : List ℕ)
        → IfOk result (λ word. moved db actor (record { cursor = cursor.old; pending = pending }) (commands.declare object columns.now conditions.now) ≡ answered word cursor.new) }
    ensures refused { IfOk result (λ word. IsTrue (refuses word) → cursor.new ≡ cursor.old) }
    ensures fault { OnErr result (cursor.new ≡ cursor.old) }
    ensures octets_read { (db : Database) → ReadsFrom reader.old db → IfOk result (λ _. Becomes
        (RisesAtMost (octets_for_operation db actor cursor.old (commands.declare object columns.now conditions.now))) (read_so_far reader.old) (read_so_far reader.new)) }
    ensures reads { ReadsOn each_error reader.old reader.new result }
{
    match cursor_on(reader, actor, object, columns, conditions) {
        Ok(declared) => {
            *cursor = Some(declared);
            Ok(StatusWord::DONE)
        }
        Err(stop) => stop.answer(),
    }
}

// The cursor that is declared, or the first refusal.
fn cursor_on<B: Eeprom>(
    reader: &mut Reader<'_, B>,
    actor: Actor,
    object: Name,
    columns: &NameList,
    conditions: &Conditions,
) -> Result<Cursor, Stop>
    ensures declared { (db : Database) → ReadsFrom reader.old db → (before : Reading)
        → IfOk result (λ cursor. moved db actor before (commands.declare object columns.now conditions.now) ≡ Ok (moved_to NotOpen cursor done)) }
    ensures new { IfOk result (λ cursor. cursor.place ≡ NotOpen) }
    ensures refused { (db : Database) → ReadsFrom reader.old db → (before : Reading)
        → IfErr result (Stops (moved db actor before (commands.declare object columns.now conditions.now))) }
    ensures octets_read { (db : Database) → ReadsFrom reader.old db
        → WhereRead result (Becomes (RisesAtMost (cell_size * cells_named db actor object)) (read_so_far reader.old) (read_so_far reader.new)) }
    ensures reads { ReadsOn is_stop_fault reader.old reader.new result }
{
    let mut found = None;
    let object = find_named(reader, actor, object, &mut found)?;
    let all = columns_of(&object.kind);
    if !are_named(&all, columns, conditions) {
        return refused(StatusWord::NOT_FOUND);
    }
    Ok(Cursor {
        object: object.stamp,
        columns: wanted(&all, columns),
        conditions: conditions.copy(),
        place: Place::NotOpen,
    })
}

// Whether the columns and those of the conditions are among all.
fn are_named(all: &NameList, columns: &NameList, conditions: &Conditions) -> bool
    ensures { result ≡ are_named_among all.now columns.now conditions.now }
{
    are_columns(all, columns) && are_of_columns(all, conditions)
}

fn are_columns(all: &NameList, names: &NameList) -> bool
    ensures { result ≡ are_among names.now all.now }
{
    names.as_slice().iter().all(|name| is_column(all, name))
}

fn are_of_columns(all: &NameList, conditions: &Conditions) -> bool
    ensures { result ≡ list_all (λ condition. list_any (bytes_eq condition.column) all.now) conditions.now }
{
    conditions
        .as_slice()
        .iter()
        .all(|condition| is_column(all, &condition.column))
}

fn is_column(all: &NameList, name: &Name) -> bool
    ensures { result ≡ list_any (bytes_eq name.now) all.now }
{
    all.as_slice()
        .iter()
        .any(|column| name.octets() == column.octets())
}

// The named columns, or all where none is named.
fn wanted(all: &NameList, named: &NameList) -> NameList
    ensures { result ≡ wanted_of all.now named.now }
{
    if named.len() == 0 {
        all.copy()
    } else {
        named.copy()
    }
}
