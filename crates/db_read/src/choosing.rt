// What a cursor chooses is found.
ghost use Rattle.std.specs.Prelude.{◌≡◌, ◌*◌, ◌≤◌, Some, IfOk, IfErr, IsTrue, length, is_some, true};
ghost use Rattle.eeprom.specs.Chip.{Becomes, RisesAtMost};
ghost use Rattle.eeprom.specs.Fault.{each_error};
ghost use Rattle.eeprom.specs.StoreOf.{cell_size};
ghost use Rattle.scql_base.specs.declared.name_list.TheConstants.NameList.{MOST};
ghost use Rattle.scql_model.specs.Cursors.{IsCursorOf};
ghost use Rattle.scql_model.specs.Database.{Database, are_named_among, object_stamped};
ghost use Rattle.scql_model.specs.Moves.{rows_under};
ghost use Rattle.record_table.specs.Making.{is_stop_fault};
ghost use Rattle.record_table.specs.Reading.{NeverFalls};
ghost use Rattle.search_cond.specs.Bound.{Binds};
ghost use Rattle.views.specs.Below.{cells_under};
ghost use Rattle.views.specs.Resolved.{ArePlaces};
ghost use Rattle.cursor.specs.Costs.{RisesBetween};
ghost use Rattle.db_read.specs.Answered.{Stops, WhereRead};
ghost use Rattle.db_read.specs.Reader.{read_so_far, ReadsFrom, ReadsOn, slots_read};
ghost use Rattle.db_read.specs.Scan.{IsResolved, IsRight};
ghost use Rattle.db_read.specs.Searched.{cells_chosen};

use crate::finding::find_selected;
use crate::reader::Reader;
use crate::scan::{Choice, Scan};
use eeprom::{Eeprom, EepromFault};
use record_store::SideReader;
use record_table::{Stop, refused};
use scql_base::{Actor, Copied, Cursor, NameList, Object, ObjectKind, StatusWord};
use search_cond::{Bound, bind_into};
use views::{Places, Resolved, places_of, resolve_into};

/// Finds what a cursor chooses: its object, from which the actor may select, the table under it where it is none of a dictionary, and its
/// columns and conditions among all of these; or the first refusal.
#[inline(never)]
pub(crate) fn choose<B: Eeprom>(
    reader: &mut Reader<'_, B>,
    actor: Actor,
    cursor: &Cursor,
    scan: &mut Scan,
) -> Result<(), Stop>
    ensures right { (db : Database) → ReadsFrom reader.old db → IsRight db actor scan.new cursor.now }
    ensures there { IfOk result (λ _. is_some scan.new ≡ true) }
    ensures refused { (db : Database) → ReadsFrom reader.old db → IsCursorOf db cursor.now
        → IfErr result (Stops (rows_under db actor cursor.now)) }
    ensures octets_read { (db : Database) → ReadsFrom reader.old db → IsCursorOf db cursor.now
        → WhereRead result (Becomes (RisesBetween 0 (cell_size * cells_chosen db actor cursor.now.object)) (read_so_far reader.old) (read_so_far reader.new)) }
    ensures reads { ReadsOn is_stop_fault reader.old reader.new result }
{
    let Scan {
        is_found,
        choice,
        ..
    } = scan;
    *is_found = false;
    let Choice {
        object,
        resolved,
        places,
        conditions,
    } = choice;
    find_selected(reader, actor, cursor.object, object)?;
    let Some(object) = object else {
        return refused(StatusWord::NOT_FOUND);
    };
    resolve(reader, object, resolved)?;
    if !place_all(&resolved.all, cursor, places, conditions) {
        return refused(StatusWord::NOT_FOUND);
    }
    *is_found = true;
    Ok(())
}

/// Finds all columns among which those of a cursor on an object are: those of the table under it, or of the dictionary that it is.
pub fn resolve<B: Eeprom>(
    reader: &mut Reader<'_, B>,
    object: &Object,
    resolved: &mut Resolved,
) -> Result<(), EepromFault>
    ensures rests { (db : Database) → ReadsFrom reader.old db → object_stamped db.objects object.now.stamp ≡ Some object.now
        → IfOk result (λ _. IsResolved db.objects object.now resolved.new) }
    ensures octets_read { (db : Database) → ReadsFrom reader.old db
        → IfOk result (λ _. Becomes (RisesAtMost (cell_size * cells_under db.objects object.now.kind)) (read_so_far reader.old) (read_so_far reader.new)) }
    ensures rises { IfOk result (λ _. NeverFalls (slots_read reader.old) (read_so_far reader.old) (read_so_far reader.new)) }
    ensures reads { ReadsOn each_error reader.old reader.new result }
{
    let columns = match &object.kind {
        ObjectKind::View { .. } => {
            let mut side = SideReader {
                store: reader.store,
                bench: &mut *reader.bench,
                side: reader.side,
            };
            return resolve_into(&mut side, object, resolved);
        }
        ObjectKind::Table { columns } => columns.copy(),
        ObjectKind::Dictionary { subject } => dictionaries::columns_of(*subject),
    };
    resolved.table = object.stamp;
    resolved.all = columns;
    resolved.filters.clear();
    Ok(())
}

// Finds the places of a cursor's columns among all, and binds its conditions to these; and answers whether each is there.
fn place_all(all: &NameList, cursor: &Cursor, places: &mut Places, bound: &mut Bound) -> bool
    ensures placed { IsTrue result → ArePlaces places.new.items all.now cursor.now.columns × Binds bound.new all.now cursor.now.conditions }
    ensures few { length cursor.now.columns ≤ MOST }
    ensures there { are_named_among all.now cursor.now.columns cursor.now.conditions ≡ true → result ≡ true }
{
    prove!(cursor.columns.len() <= NameList::MOST);
    let Some(found) = places_of(all, &cursor.columns) else {
        return false;
    };
    *places = found;
    bind_into(all, &cursor.conditions, bound).is_ok()
}
