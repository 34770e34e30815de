// INSERT.
ghost use Rattle.std.specs.Prelude.{◌≡◌, true, length};
ghost use Rattle.record_store.specs.declared.side.Side.TheVariants.{Working};
ghost use Rattle.scql_base.specs.declared.operation.Operation.TheVariants as operation;
ghost use Rattle.scql_model.specs.Database as model;
ghost use Rattle.scql_model.specs.Edits.{making};
ghost use Rattle.scql_model.specs.Objects.{columns_of};
ghost use Rattle.scql_model.specs.Records.{of_row};
ghost use Rattle.scql_model.specs.WellFormed.{FitsCard, HasForm};
ghost use Rattle.scql_model.specs.Writing.{row_inserted};
ghost use Rattle.catalog_codec.specs.Catalog.{row_kind};
ghost use Rattle.catalog_codec.specs.Kinds.{FitsChain};
ghost use Rattle.record_table.specs.Asking.{Asks};
ghost use Rattle.record_table.specs.Making.{is_stop_fault};
ghost use Rattle.row_table.specs.Tables.{Ended, InTransaction};
ghost use Rattle.db_write.specs.Reached.{AnswersEdits};

use eeprom::Eeprom;
use object_table::find_name_into;
use privilege_table::{Privilege, rights_on};
use record_store::{Side, SideReader};
use record_table::{Stop, next_stamp, refused};
use row_table::Tables;
use scql_base::{Actor, Copied, Name, ObjectKind, Row, RowRecord, StatusWord};

/// INSERT: adds a row behind all others of a table. The index follows.
pub fn insert<B: Eeprom>(
    tables: &mut Tables,
    bench: &mut B,
    actor: Actor,
    table: Name,
    row: &Row,
) -> Result<(), Stop>
    requires open { InTransaction tables.old (B.chip bench.old) }
    ensures { Ended B.chip B.faults (λ db. HasForm (operation.Insert table row.now) × FitsCard db.limit (operation.Insert table row.now)) (λ db. row_inserted db actor table row.now)
        bench.old bench.new tables.old tables.new result }
{
    let mut reader = SideReader {
        store: &tables.store,
        bench,
        side: Side::Working,
    };
    let table = find_table(&mut reader, actor, table, row)?;
    let counter = next_stamp(&tables.store, bench)?;
    let record = new_record(counter.value.next, table, row);
    tables.make_row(bench, &counter, &record)
}

// The stamp of the table into which the actor may insert the row, or the first refusal.
fn find_table<B: Eeprom>(
    reader: &mut SideReader<'_, '_, B>,
    actor: Actor,
    name: Name,
    row: &Row,
) -> Result<u32, Stop>
    ensures { Asks is_stop_fault (λ db. AnswersEdits (λ table. making db (of_row (record { stamp = db.next; table = table; row = row.now }))) (row_inserted db actor name row.now)) reader.old reader.new result }
{
    let mut place = None;
    find_name_into(reader, name, &mut place)?;
    let Some(object) = &place else {
        return refused(StatusWord::NOT_FOUND);
    };
    let rights = rights_on(reader, actor, object)?;
    if !rights.see() {
        return refused(StatusWord::NOT_FOUND);
    }
    if !is_table(&object.kind) {
        return refused(StatusWord::NOT_FOUND);
    }
    if !rights.have(Privilege::Insert) {
        return refused(StatusWord::SECURITY_NOT_SATISFIED);
    }
    if row.len() != column_count(&object.kind) {
        return refused(StatusWord::WRONG_DATA);
    }
    Ok(object.stamp)
}

fn is_table(kind: &ObjectKind) -> bool
    ensures { result ≡ model.is_table kind.now }
{
    matches!(kind, ObjectKind::Table { .. })
}

// How many columns a table has.
fn column_count(kind: &ObjectKind) -> usize
    ensures { model.is_table kind.now ≡ true → result ≡ length (columns_of kind.now) }
{
    match kind {
        ObjectKind::Table { columns } | ObjectKind::View { columns, .. } => columns.len(),
        ObjectKind::Dictionary { .. } => 0,
    }
}

// A row of a table, whose record a store can have.
fn new_record(stamp: u32, table: u32, row: &Row) -> RowRecord
    ensures record { result ≡ record { stamp = stamp; table = table; row = row.now } }
    ensures short { FitsChain row_kind result }
{
    prove!(row.len() <= Row::MOST);
    RowRecord {
        stamp,
        table,
        row: row.copy(),
    }
}
