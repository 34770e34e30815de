// A row after changes to named columns.
ghost use Rattle.std.specs.Prelude.{◌≡◌, ◌<◌, ◌≤◌, [], MatchOption, get_or, length, map};
ghost use Rattle.std.specs.List.{list_any};
ghost use Rattle.std.specs.Str.{bytes_eq};
ghost use Rattle.scql_base.specs.Row.{row_size};
ghost use Rattle.scql_base.specs.declared.row.TheConstants.Row.{LARGEST, LONGEST_VALUE};
ghost use Rattle.scql_model.specs.Rules as rules;
ghost use Rattle.scql_model.specs.Writing.{all_assigned, assigned};
ghost use Rattle.plain_database.specs.Within.{IsWithin};

use crate::matching::value_at;
use scql_base::{Name, NameList, PackedChanges, Row};

/// Whether the columns of changes are among all.
pub(crate) fn are_changed_among(all: &NameList, changes: &PackedChanges) -> bool
    ensures { result ≡ rules.are_among (map (λ a. a.0) changes.now) all.now }
{
    let mut left = changes.run();
    while let Some(((column, _), behind)) = left.first() {
        if !is_among(all, column) {
            return false;
        }
        left = behind;
    }
    true
}

/// The row of these columns after changes, where its values are a row.
pub(crate) fn row_after(columns: &NameList, changes: &PackedChanges, row: &Row) -> Option<Row>
    requires { length columns.now ≡ length row.now }
    ensures { MatchOption result (LARGEST < row_size (all_assigned changes.now columns.now row.now)) (λ after. after ≡ all_assigned changes.now columns.now row.now) }
{
    let names = columns.as_slice();
    let mut after = Row::new();
    for (place, column) in names.iter().enumerate() {
        let value = value_assigned(changes, column, value_at(row, place));
        let Ok(()) = after.push(value) else {
            return None;
        };
    }
    Some(after)
}

// The value in a column after changes, of which none is too long for a row.
fn value_assigned<'a>(changes: &'a PackedChanges, column: &Name, own: &'a [u8]) -> &'a [u8]
    requires { length own.now ≤ LONGEST_VALUE }
    ensures { IsWithin LONGEST_VALUE result.now (assigned changes.now column.now own.now) }
{
    let mut left = changes.run();
    while let Some(((name, value), behind)) = left.first() {
        if column.octets() == name {
            return value;
        }
        left = behind;
    }
    own
}

// Whether octets are one of some names.
fn is_among(names: &NameList, octets: &[u8]) -> bool
    ensures { result ≡ list_any (bytes_eq octets.now) names.now }
{
    names.as_slice().iter().any(|name| octets == name.octets())
}
