// Which statements are too large for their commands.
ghost use Rattle.std.specs.Prelude.{◌≡◌};
ghost use Rattle.scql_base.specs.declared.operation.Operation.TheVariants.{DeclareCursor, Update};
ghost use Rattle.script.specs.Sizes as sizes;

use crate::Statement;
use apdu::field_fits;
use scql_base::{Changes, Conditions, Copied, Name, NameList, Operation, PackedChanges, Row};

/// Is a row of this statement, or one of its commands, too large?
pub(crate) fn is_too_large(statement: &Statement) -> bool
    ensures { result ≡ sizes.is_too_large statement.now }
{
    match statement {
        Statement::Single { operation } => is_operation_too_large(operation),
        Statement::Select {
            object,
            columns,
            conditions,
        } => is_cursor_too_large(object, columns, conditions),
        Statement::UpdateRows {
            object,
            changes,
            conditions,
        } => {
            is_cursor_too_large(object, &NameList::new(), conditions)
                || are_changes_too_large(changes)
        }
        Statement::DeleteRows { object, conditions } => {
            is_cursor_too_large(object, &NameList::new(), conditions)
        }
        _ => false,
    }
}

// Is the command too large that declares a cursor over rows?
#[inline(never)]
fn is_cursor_too_large(object: &Name, columns: &NameList, conditions: &Conditions) -> bool
    ensures { result ≡ sizes.is_operation_too_large (DeclareCursor object.now columns.now conditions.now) }
{
    is_operation_too_large(&Operation::DeclareCursor {
        object: object.copy(),
        columns: columns.copy(),
        conditions: conditions.copy(),
    })
}

// Is the command too large that changes a row?
#[inline(never)]
fn are_changes_too_large(changes: &Changes) -> bool
    ensures { result ≡ sizes.is_operation_too_large (Update changes.now) }
{
    PackedChanges::of(changes).is_none()
}

fn is_operation_too_large(operation: &Operation) -> bool
    ensures { result ≡ sizes.is_operation_too_large operation.now }
{
    has_long_row(operation) || !field_fits(operation)
}

fn has_long_row(operation: &Operation) -> bool
    ensures { result ≡ sizes.has_long_row operation.now }
{
    match operation {
        Operation::Insert { row, .. } => row.size() > Row::LARGEST,
        _ => false,
    }
}
