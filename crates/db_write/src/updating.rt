// UPDATE.
ghost use Rattle.std.specs.Prelude.{◌≡◌, ◌≤◌, [], ◌∷◌, List, Result, IfOk, IfSome, length, map, option_map, true};
ghost use Rattle.std.specs.List.{list_any};
ghost use Rattle.std.specs.Str.{bytes_eq};
ghost use Rattle.eeprom.specs.Frame.{Reads};
ghost use Rattle.record_store.specs.declared.side.Side.TheVariants.{Working};
ghost use Rattle.scql_base.specs.Row.{IsRow};
ghost use Rattle.scql_base.specs.declared.row.TheConstants.Row.{LARGEST};
ghost use Rattle.scql_base.specs.declared.operation.Operation.TheVariants as operation;
ghost use Rattle.scql_base.specs.declared.words.StatusWord as words;
ghost use Rattle.scql_model.specs.Database.{Database, are_among};
ghost use Rattle.scql_model.specs.Defining.{is_table_or_view};
ghost use Rattle.scql_model.specs.Edits.{Edit, changing};
ghost use Rattle.scql_model.specs.Objects.{columns_of};
ghost use Rattle.scql_model.specs.Records.{of_row};
ghost use Rattle.scql_model.specs.WellFormed.{HasForm};
ghost use Rattle.scql_model.specs.Writing.{Assignment, all_assigned, row_updated};
ghost use Rattle.catalog_codec.specs.Catalog.{row_kind};
ghost use Rattle.catalog_codec.specs.Kinds.{FitsChain};
ghost use Rattle.record_table.specs.Making.{IsHeld, is_stop_fault};
ghost use Rattle.row_table.specs.Tables.{EndedBy, InTransaction, Stand};
ghost use Rattle.db_read.specs.Scan.{IsRightFor};
ghost use Rattle.db_write.specs.Assigned.{within_limit};
ghost use Rattle.db_write.specs.Reached.{AnswersEdits, IsThrough, MayReplace};

use crate::assigning::row_after;
use crate::reaching::{find_row, find_written, opened};
use db_read::Scan;
use eeprom::Eeprom;
use privilege_table::Privilege;
use record_table::{Stop, refused};
use row_table::Tables;
use scql_base::{
    Actor, Cursor, NameList, Object, ObjectKind, PackedChanges, Row, RowRecord, StatusWord,
};

/// UPDATE: gives named columns of the row at which a cursor stands new values. The row keeps its stamp, its table and its slot, and so the index stands as it did.
/// What a scan has found isn't looked for again.
pub fn update<B: Eeprom>(
    tables: &mut Tables,
    bench: &mut B,
    actor: Actor,
    cursor: &Option<Cursor>,
    changes: &PackedChanges,
    scan: &mut Scan,
) -> Result<(), Stop>
    requires open { InTransaction tables.old (B.chip bench.old) }
    requires right { (db : Database) → IsHeld tables.old.store Working (B.chip bench.old) db → IsRightFor db actor scan.old cursor.now }
    ensures ended { EndedBy B.chip B.faults (λ db. HasForm (operation.Update changes.now)) (λ db. IsThrough db (λ cursor. row_updated db actor cursor changes.now) cursor.now)
        bench.old bench.new tables.old tables.new result }
    ensures index_same { tables.new.index ≡ tables.old.index }
    ensures scan_same { scan.new ≡ scan.old }
{
    let mut updated = RowRecord {
        stamp: 0,
        table: 0,
        row: Row::new(),
    };
    let slot = find_updated(tables, bench, actor, cursor, changes, scan, &mut updated)?;
    tables.change_row(bench, slot, &updated)
}

// The slot of the row at which a cursor stands, or the first refusal. The row as it is after the changes is put into an empty place.
fn find_updated<B: Eeprom>(
    tables: &Tables,
    bench: &mut B,
    actor: Actor,
    cursor: &Option<Cursor>,
    changes: &PackedChanges,
    scan: &mut Scan,
    updated: &mut RowRecord,
) -> Result<u16, Stop>
    requires stand { Stand tables.now (B.chip bench.old) }
    requires right { (db : Database) → IsHeld tables.now.store Working (B.chip bench.old) db → IsRightFor db actor scan.old cursor.now }
    requires empty { updated.old.row ≡ [] }
    ensures at { IfOk result (MayReplace tables.now (B.chip bench.old) updated.new) }
    ensures fits { (db : Database) → IsHeld tables.now.store Working (B.chip bench.old) db → IfOk result (λ _. row_kind.form.fits updated.new ≡ true) }
    ensures updated { (db : Database) → IsHeld tables.now.store Working (B.chip bench.old) db
        → (outcome : Result (List Edit) words.StatusWord) × IsThrough db (λ cursor. row_updated db actor cursor changes.now) cursor.now outcome × AnswersEdits (λ _. changing (of_row updated.new) ∷ []) outcome result }
    ensures scan_same { scan.new ≡ scan.old }
    ensures frame { Reads is_stop_fault B.chip B.faults bench.old bench.new result }
{
    let Some(cursor) = opened(cursor) else {
        return refused(StatusWord::CONDITIONS_NOT_SATISFIED);
    };
    let Scan {
        is_found,
        choice,
        room,
    } = scan;
    let store = &tables.store;
    find_written(
        store,
        bench,
        actor,
        cursor,
        Privilege::Update,
        is_found,
        choice,
    )?;
    if !are_columns(&choice.object, changes) {
        return refused(StatusWord::NOT_FOUND);
    }
    let Some(slot) = find_row(tables, bench, cursor, *is_found, choice, room)? else {
        return refused(StatusWord::RECORD_NOT_FOUND);
    };
    let limit = store.row_limit();
    let Some(()) = record_after(&choice.resolved.all, changes, &room.row, limit, updated) else {
        return refused(StatusWord::WRONG_DATA);
    };
    Ok(slot)
}

// Whether the changes are to columns of the table or the view that was found.
fn are_columns(found: &Option<Object>, changes: &PackedChanges) -> bool
    ensures { IfSome found.now (λ object. is_table_or_view object.kind ≡ true → result ≡ are_among (map (λ (change : Assignment). change.0) changes.now) (columns_of object.kind)) }
{
    let Some(object) = found else {
        return false;
    };
    match &object.kind {
        ObjectKind::Table { columns } | ObjectKind::View { columns, .. } => {
            are_named(columns, changes)
        }
        ObjectKind::Dictionary { .. } => false,
    }
}

fn are_named(columns: &NameList, changes: &PackedChanges) -> bool
    ensures { result ≡ are_among (map (λ (change : Assignment). change.0) changes.now) columns.now }
{
    let mut left = changes.run();
    while let Some(((name, _), behind)) = left.first() {
        if !is_column(columns, name) {
            return false;
        }
        left = behind;
    }
    true
}

fn is_column(columns: &NameList, name: &[u8]) -> bool
    ensures { result ≡ list_any (bytes_eq name.now) columns.now }
{
    columns
        .as_slice()
        .iter()
        .any(|column| name == column.octets())
}

// Puts a row of a table with its values after changes into an empty place, where they are within a limit of octets: a store can have its record.
fn record_after(
    columns: &NameList,
    changes: &PackedChanges,
    was: &RowRecord,
    limit: u16,
    updated: &mut RowRecord,
) -> Option<()>
    requires limit { limit ≤ LARGEST }
    requires empty { updated.old.row ≡ [] }
    ensures after { length columns.now ≡ length was.now.row → option_map (λ _. updated.new.row) result ≡ within_limit limit (all_assigned changes.now columns.now was.now.row) }
    ensures record { IfSome result (λ _. updated.new ≡ record { stamp = was.now.stamp; table = was.now.table; row = updated.new.row }) }
    ensures is_row { IfSome result (λ _. IsRow updated.new.row) }
    ensures short { IfSome result (λ _. FitsChain row_kind updated.new) }
{
    updated.stamp = was.stamp;
    updated.table = was.table;
    row_after(columns, changes, &was.row, limit, &mut updated.row)?;
    prove!(updated.row.len() <= Row::MOST);
    Some(())
}
