// A row after changes to named columns.
ghost use Rattle.std.specs.Prelude.{◌≡◌, ◌<◌, ◌≤◌, [], IfSome, MatchOption, length, option_map};
ghost use Rattle.scql_base.specs.declared.row.TheConstants.Row.{LARGEST, LONGEST_VALUE};
ghost use Rattle.scql_base.specs.Row.{row_size};
ghost use Rattle.scql_model.specs.Writing.{all_assigned};
ghost use Rattle.db_write.specs.Assigned.{value_given, within_limit};

use scql_base::{Name, NameList, PackedChanges, Params, Row};

/// Puts a row of these columns after changes into an empty place, where it is within a limit of octets.
pub(crate) fn row_after(
    columns: &NameList,
    changes: &PackedChanges,
    row: &Row,
    limit: u16,
    after: &mut Row,
) -> Option<()>
    requires limit { limit ≤ LARGEST }
    requires empty { after.old ≡ [] }
    ensures after { length columns.now ≡ length row.now → option_map (λ _. after.new) result ≡ within_limit limit (all_assigned changes.now columns.now row.now) }
{
    assigned(columns, changes, row, after)?;
    if after.size() <= usize::from(limit) {
        Some(())
    } else {
        None
    }
}

// The row after changes, where its values are a row.
fn assigned(columns: &NameList, changes: &PackedChanges, row: &Row, after: &mut Row) -> Option<()>
    requires empty { after.old ≡ [] }
    ensures after { length columns.now ≡ length row.now
        → MatchOption result (LARGEST < row_size (all_assigned changes.now columns.now row.now)) (λ _. after.new ≡ all_assigned changes.now columns.now row.now) }
{
    prove!(row.len() <= Row::MOST);
    let mut rest = row.octets();
    for column in columns.as_slice() {
        let (value, behind) = Params::first_in(rest)?;
        let Ok(()) = after.push(value_given(changes, column).unwrap_or(value)) else {
            return None;
        };
        rest = behind;
    }
    Some(())
}

// The value that changes give a column, where they give it one.
fn value_given<'a>(changes: &'a PackedChanges, column: &Name) -> Option<&'a [u8]>
    ensures given { option_map (λ value. value.now) result ≡ value_given changes.now column.now }
    ensures short { IfSome result (λ value. length value.now ≤ LONGEST_VALUE) }
{
    let mut left = changes.run();
    while let Some(((name, value), behind)) = left.first() {
        if column.octets() == name {
            return Some(value);
        }
        left = behind;
    }
    None
}
