// Whether rows meet conditions.
ghost use Rattle.std.specs.Prelude.{◌≡◌, ◌≤◌, [], get_or, position};
ghost use Rattle.std.specs.Str.{bytes_eq};
ghost use Rattle.scql_base.specs.Row.{row_size};
ghost use Rattle.scql_base.specs.declared.row.TheConstants.Row.{LARGEST, LONGEST_VALUE};
ghost use Rattle.scql_model.specs.Contents as contents;
ghost use Rattle.scql_model.specs.Matching as matching;
ghost use Rattle.plain_database.specs.Within.{IsWithin};

use scql_base::{Comparison, Condition, Name, NameList, Row};

/// Whether a row of some columns meets all conditions.
pub fn matches(columns: &NameList, conditions: &[Condition], row: &Row) -> bool
    ensures { result ≡ matching.matches columns.now conditions.now row.now }
{
    conditions
        .iter()
        .all(|condition| meets(columns, row, condition))
}

/// A row's value in a column.
pub fn value_of<'a>(columns: &NameList, row: &'a Row, column: &Name) -> &'a [u8]
    ensures { IsWithin LONGEST_VALUE result.now (matching.value_of columns.now row.now column.now) }
{
    match place_of(columns, column) {
        Some(place) => value_at(row, place),
        None => &[],
    }
}

/// A row's value at a place, or nothing.
pub(crate) fn value_at(row: &Row, place: usize) -> &[u8]
    ensures { IsWithin LONGEST_VALUE result.now (get_or row.now place []) }
{
    prove!(row.len() <= Row::MOST);
    match row.get(place) {
        Some(value) => value,
        None => &[],
    }
}

/// A row's values in the wanted columns, in their order.
pub fn cut_to(columns: &NameList, wanted: &NameList, row: &Row) -> Row
    requires { row_size (contents.cut_to columns.now wanted.now row.now) ≤ LARGEST }
    ensures { result ≡ contents.cut_to columns.now wanted.now row.now }
{
    let wanted = wanted.as_slice();
    let mut cut = Row::new();
    for name in wanted {
        let fits = cut.push(value_of(columns, row, name)).is_ok();
        prove!(fits);
    }
    cut
}

// Whether a row meets a condition.
fn meets(columns: &NameList, row: &Row, condition: &Condition) -> bool
    ensures { result ≡ matching.meets columns.now row.now condition.now }
{
    columns.contains(&condition.column)
        && compares(
            condition.comparison,
            value_of(columns, row, &condition.column),
            condition.value.as_slice(),
        )
}

// Whether a comparison is true of two values.
fn compares(comparison: Comparison, value: &[u8], other: &[u8]) -> bool
    ensures { result ≡ matching.compares comparison value.now other.now }
{
    let order = value.cmp(other);
    match comparison {
        Comparison::Equal => order.is_eq(),
        Comparison::Less => order.is_lt(),
        Comparison::Greater => order.is_gt(),
        Comparison::AtMost => order.is_le(),
        Comparison::AtLeast => order.is_ge(),
        Comparison::NotEqual => order.is_ne(),
    }
}

// The first place of a column.
fn place_of(columns: &NameList, column: &Name) -> Option<usize>
    ensures { result ≡ position (bytes_eq column.now) columns.now }
{
    columns
        .as_slice()
        .iter()
        .position(|name| column.octets() == name.octets())
}
