// What tables and views rest on: columns that are different, and for a view a base.
ghost use Rattle.std.specs.Prelude.{◌≡◌, ◌==◌, ◌&&◌, Some, is_some, map, nat_lt, option_copied};
ghost use Rattle.scql_base.specs.declared.condition.Condition as declared;
ghost use Rattle.scql_model.specs.Objects as objects;
ghost use Rattle.scql_model.specs.Rules as rules;
ghost use Rattle.card.specs.Founded as specs;
ghost use Rattle.card.specs.KeptRecords.{objects_in};

use crate::sorted_records::SortedRecords;
use crate::validity::find_object;
use scql_base::{Condition, NameList, Object, ObjectKind};

/// How many views there are at most between a table and what rests on it.
const DEEPEST: usize = 4;

/// Whether a table's or a view's columns are different, and what a view rests on is there.
pub(crate) fn is_founded(records: &SortedRecords, object: &Object) -> bool
    ensures { result ≡ rules.is_founded (objects_in records.now.items) object.now }
{
    match &object.kind {
        ObjectKind::Table { columns } => columns.are_different(),
        ObjectKind::View {
            base,
            columns,
            conditions,
        } => {
            columns.are_different()
                && match find_object(records, *base) {
                    Some(base) => {
                        rests_on(records, object, columns, conditions.as_slice(), &base)
                    }
                    None => false,
                }
        }
        ObjectKind::Dictionary { .. } => true,
    }
}

// Whether a view of these columns and conditions may rest on a base.
fn rests_on(
    records: &SortedRecords,
    view: &Object,
    columns: &NameList,
    conditions: &[Condition],
    base: &Object,
) -> bool
    requires there { objects.object_stamped (objects_in records.now.items) base.now.stamp ≡ Some base.now }
    ensures { result ≡ rules.rests_on (objects_in records.now.items) view.now columns.now conditions.now base.now }
{
    let Some(all) = own_columns(&base.kind) else {
        return false;
    };
    if !stands_before(base, view) {
        return false;
    }
    if !may_have_view(records, base.stamp) {
        return false;
    }
    are_named_among(all, columns, conditions)
}

// Whether a base is older than a view, and has the same owner.
fn stands_before(base: &Object, view: &Object) -> bool
    ensures { result ≡ (nat_lt base.now.stamp view.now.stamp && (base.now.owner == view.now.owner)) }
{
    base.stamp < view.stamp && base.owner == view.owner
}

// The columns of a table or a view. No view rests on a dictionary.
fn own_columns(kind: &ObjectKind) -> Option<&NameList>
    ensures { option_copied result ≡ specs.own_columns kind.now }
{
    match kind {
        ObjectKind::Table { columns } | ObjectKind::View { columns, .. } => Some(columns),
        ObjectKind::Dictionary { .. } => None,
    }
}

// Whether a table is less than four views under the object of a stamp.
fn may_have_view(records: &SortedRecords, stamp: u32) -> bool
    ensures { result ≡ is_some (objects.depth_below DEEPEST (objects_in records.now.items) stamp) }
{
    let mut stamp = stamp;
    for _step in 0..DEEPEST {
        let Some(object) = find_object(records, stamp) else {
            return false;
        };
        match &object.kind {
            ObjectKind::Table { .. } => return true,
            ObjectKind::View { base, .. } => stamp = *base,
            ObjectKind::Dictionary { .. } => return false,
        }
    }
    false
}

// Whether columns and the columns of conditions are among those of a base.
fn are_named_among(all: &NameList, columns: &NameList, conditions: &[Condition]) -> bool
    ensures { result ≡ rules.are_named_among all.now columns.now conditions.now }
{
    are_among(columns, all) && are_conditions_among(conditions, all)
}

// Whether each name is that of a column.
fn are_among(names: &NameList, columns: &NameList) -> bool
    ensures { result ≡ rules.are_among names.now columns.now }
{
    names.as_slice().iter().all(|name| columns.contains(name))
}

// Whether each condition is on a column.
fn are_conditions_among(conditions: &[Condition], columns: &NameList) -> bool
    ensures { result ≡ rules.are_among (map (λ (c : declared.Condition). c.column) conditions.now) columns.now }
{
    for condition in conditions {
        if !columns.contains(&condition.column) {
            return false;
        }
    }
    true
}
