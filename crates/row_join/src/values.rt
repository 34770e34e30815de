// Values where they stand in fetched rows.
ghost use Rattle.row_join.specs.Joins as joins;
ghost use Rattle.row_join.specs.Joins.{IsValue};
ghost use Rattle.row_join.specs.Links.{value_in};
ghost use Rattle.row_join.specs.Places.{row_at, rows_of};

use crate::{Column, Combination, Fetched};
use scql_base::Row;

// The value at a place of a row, and nothing where there is none.
fn value_among(row: &Row, place: usize) -> &[u8]
    ensures { IsValue result.now (value_in row.now place) }
{
    // A row has no longer value.
    let _ = row.len();
    match row.get(place) {
        Some(value) => value,
        None => &[],
    }
}

// The value at a place of the row that stands at another, and nothing where there is none.
pub(crate) fn value_of(rows: &[Row], row: usize, place: usize) -> &[u8]
    ensures { IsValue result.now (value_in (row_at rows.now row) place) }
{
    match rows.get(row) {
        Some(row) => value_among(row, place),
        None => &[],
    }
}

/// The value of a column in a combination of objects' rows, and nothing where there is no such column. It has at most 200 octets.
pub fn value_at<'a>(tables: &'a [Fetched], combination: &Combination, column: Column) -> &'a [u8]
    ensures { IsValue result.now (joins.value_at (rows_of tables.now combination.now.places) column) }
{
    let Some(table) = tables.get(column.object) else {
        return &[];
    };
    match combination.places.get(column.object) {
        Some(place) => value_of(table.rows(), *place, column.place),
        None => &[],
    }
}
