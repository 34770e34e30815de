// The lists of a data field: names, conditions, changes and the values of a row.
ghost use Rattle.std.specs.Prelude.{◌≡◌, ◌≤◌, [], length, option_map};
ghost use Rattle.scql_base.specs.declared.operation.TheConstants.Command.{LONGEST_IN_PARTS};
ghost use Rattle.scql_base.specs.declared.row.TheConstants.Row.{LARGEST};
ghost use Rattle.apdu.specs.Fields as fields;

use scql_base::{
    Comparison, Condition, Conditions, Copied, Name, NameList, Octets, PackedChanges, Params, Row,
};

// 1 to 15 different names, to the end.
pub(crate) fn columns_in(octets: &[u8]) -> Option<NameList>
    ensures { result ≡ fields.read_by fields.columns_in octets.now }
{
    let mut names = NameList::new();
    let mut rest = octets;
    while let Some((string, after)) = Params::first_in(rest) {
        names.push(Name::read(string)?).ok()?;
        rest = after;
    }
    if rest.is_empty() && names.len() != 0 && names.are_different() {
        Some(names)
    } else {
        None
    }
}

// So many different names, at most 15, and the octets behind them.
pub(crate) fn names_in(count: usize, octets: &[u8]) -> Option<(NameList, &[u8])>
    ensures { fields.read_before (option_map (λ x. (x.0, x.1.now)) result) ≡ fields.read_by (fields.names_in count) octets.now }
{
    let mut names = NameList::new();
    let mut rest = octets;
    for _ in 0..count {
        let (string, after) = Params::first_in(rest)?;
        names.push(Name::read(string)?).ok()?;
        rest = after;
    }
    if names.are_different() {
        Some((names, rest))
    } else {
        None
    }
}

// At most eight conditions, to the end.
pub(crate) fn conditions_in(octets: &[u8]) -> Option<Conditions>
    ensures { result ≡ fields.read_by fields.conditions_in octets.now }
{
    let mut conditions = Conditions::new();
    let mut rest = octets;
    while let Some((column, after)) = Params::first_in(rest) {
        let (comparison, after) = Params::first_in(after)?;
        let (value, after) = Params::first_in(after)?;
        let condition = condition_of(column, comparison, value)?;
        conditions.push(condition).ok()?;
        rest = after;
    }
    if rest.is_empty() {
        Some(conditions)
    } else {
        None
    }
}

// The condition that three strings are: a column's name, one octet for the comparison, and a value.
fn condition_of(column: &[u8], comparison: &[u8], value: &[u8]) -> Option<Condition>
    ensures { result ≡ fields.condition_of column.now comparison.now value.now }
{
    Some(Condition {
        column: Name::read(column)?,
        comparison: comparison_in(comparison)?,
        value: Octets::of(value)?,
    })
}

fn comparison_in(string: &[u8]) -> Option<Comparison>
    ensures { result ≡ fields.comparison_in string.now }
{
    match string {
        [code] => Comparison::of(*code),
        _ => None,
    }
}

// Reads 1 to 15 changes of different columns, to the end, into a place without any.
pub(crate) fn read_changes(octets: &[u8], changes: &mut PackedChanges) -> Option<()>
    requires short { length octets.now ≤ LONGEST_IN_PARTS }
    requires empty { changes.old ≡ [] }
    ensures { option_map (λ _. changes.new) result ≡ fields.read_by fields.changes_in octets.now }
{
    let mut columns = NameList::new();
    let mut rest = octets;
    while let Some((column, after)) = Params::first_in(rest) {
        let (value, after) = Params::first_in(after)?;
        let column = Name::read(column)?;
        if value.len() > Row::LONGEST_VALUE {
            return None;
        }
        columns.push(column.copy()).ok()?;
        let pushed = changes.push(&column, value).is_ok();
        prove!(pushed);
        rest = after;
    }
    if rest.is_empty() && columns.len() != 0 && columns.are_different() {
        Some(())
    } else {
        None
    }
}

// Reads a row of 1 to 15 values and at most so many octets, to the end, into a place.
pub(crate) fn read_row(limit: u16, octets: &[u8], place: &mut Row) -> Option<()>
    requires { limit ≤ LARGEST }
    ensures { option_map (λ _. place.new) result ≡ fields.read_by (fields.values_in limit) octets.now }
{
    place.read_into(octets)?;
    if place.len() != 0 && place.size() <= usize::from(limit) {
        Some(())
    } else {
        None
    }
}
