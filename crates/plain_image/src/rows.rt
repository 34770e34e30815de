// The rules of the rows of a valid database.
ghost use Rattle.std.specs.Prelude.{◌≡◌};
ghost use Rattle.std.specs.List.{list_all};
ghost use Rattle.scql_model.specs.Rules as model;
ghost use Rattle.plain_image.specs.Rules as rules;

use crate::searches::object_stamped;
use crate::stamps::do_rise;
use plain_database::PlainDatabase;
use scql_base::{Object, ObjectKind, RowRecord};

/// Whether the rows are those of a valid database.
pub(crate) fn are_right_rows(database: &PlainDatabase) -> bool
    ensures { result ≡ rules.are_right_rows database.now.limit database.now.objects database.now.rows }
{
    let rows = database.rows();
    do_rise(rows) && is_each_right(database, rows)
}

// Whether the rules of a single row hold of each.
fn is_each_right(database: &PlainDatabase, rows: &[RowRecord]) -> bool
    ensures { result ≡ list_all (rules.is_right_row database.now.limit database.now.objects) rows.now }
{
    rows.iter().all(|row| is_right_row(database, row))
}

// Whether a row is within the card's limit, and in a table.
fn is_right_row(database: &PlainDatabase, row: &RowRecord) -> bool
    ensures { result ≡ rules.is_right_row database.now.limit database.now.objects row.now }
{
    row.row.size() <= usize::from(database.limit()) && has_table(database, row)
}

// Whether the table of a row is there, and fits it.
fn has_table(database: &PlainDatabase, row: &RowRecord) -> bool
    ensures { result ≡ model.has_table database.now.objects row.now }
{
    match object_stamped(database, row.table) {
        Some(object) => fits_table(row, object),
        None => false,
    }
}

// Whether an object is a table that is older than a row, and has a column for each of its values.
fn fits_table(row: &RowRecord, object: &Object) -> bool
    ensures { result ≡ model.fits_table row.now object.now }
{
    match &object.kind {
        ObjectKind::Table { columns } => {
            object.stamp < row.stamp && columns.len() == row.row.len()
        }
        ObjectKind::View { .. } | ObjectKind::Dictionary { .. } => false,
    }
}
