// The rows that a cursor shows, through the views between it and their table.
ghost use Rattle.std.specs.Prelude.{◌≡◌, IfSome, option_copied, option_map};
ghost use Rattle.std.specs.List.{find};
ghost use Rattle.plain_database.specs.Sought as model;

use crate::matching::{cut_to, matches};
use crate::{Resolved, Rising, Sought, ValidDatabase};
use scql_base::{Condition, Cursor, Row, RowRecord};

/// A row as a cursor shows it, with the stamp of its record.
#[derive(Drop)]
pub struct ShownRow {
    pub stamp: u32,
    pub values: Row,
}

impl<'a> ValidDatabase<'a> {
    /// The record of the row that is sought among those that a cursor shows.
    pub fn find_record(
        &self,
        resolved: &Resolved<'_>,
        cursor: &Cursor,
        sought: Sought,
    ) -> Option<&'a RowRecord>
        requires { model.IsResolvedFor self.now cursor.now resolved.now }
        ensures shown { option_map (model.row_through resolved.now cursor.now.columns) (option_copied result) ≡ model.sought_row self.now cursor.now sought }
        ensures row { IfSome (option_copied result) (model.IsShownRow self.now resolved.now cursor.now.columns) }
    {
        let rows = Rising {
            records: self.database().rows(),
        };
        find_among(
            sought.admitted(&rows),
            resolved,
            cursor.conditions.as_slice(),
        )
    }

    /// The row that is sought among those that a cursor shows.
    pub fn find_through(
        &self,
        resolved: &Resolved<'_>,
        cursor: &Cursor,
        sought: Sought,
    ) -> Option<ShownRow>
        requires { model.IsResolvedFor self.now cursor.now resolved.now }
        ensures { option_map model.row_shown result ≡ model.sought_row self.now cursor.now sought }
    {
        let found = self.find_record(resolved, cursor, sought)?;
        Some(ShownRow {
            stamp: found.stamp,
            values: cut_to(resolved.all(), &cursor.columns, &found.row),
        })
    }
}

// The first of some records that is a row of the table, and passes what is resolved and the conditions.
fn find_among<'a>(
    rows: &'a [RowRecord],
    resolved: &Resolved<'_>,
    conditions: &[Condition],
) -> Option<&'a RowRecord>
    ensures { option_copied result ≡ find (model.is_in_table resolved.now conditions.now) rows.now }
{
    rows.iter()
        .find(|row| is_in_table(row, resolved, conditions))
}

// Whether a record is a row of the table, and passes what is resolved and the conditions.
fn is_in_table(row: &RowRecord, resolved: &Resolved<'_>, conditions: &[Condition]) -> bool
    ensures { result ≡ model.is_in_table resolved.now conditions.now row.now }
{
    row.table == resolved.table()
        && matches(resolved.all(), conditions, &row.row)
        && resolved.passes(&row.row)
}
