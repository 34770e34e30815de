// From view to base, down to a table.
ghost use Rattle.std.specs.Prelude.{◌≡◌, ◌≤◌, ◌<◌, ◌+◌, ◌∷◌, [], suc, true, Some, IfOk, length};
ghost use Rattle.std.specs.List.{list_all};
ghost use Rattle.scql_model.specs.Database.{Database};
ghost use Rattle.scql_model.specs.Resolving as model;
ghost use Rattle.scql_model.specs.Resolving.{AreKnown, resolved_below};
ghost use Rattle.record_table.specs.Asking.{Holds};
ghost use Rattle.record_table.specs.Reading.{ReadsDatabase};
ghost use Rattle.views.specs.Below.{cells_below};
ghost use Rattle.views.specs.Resolved.{Reaches};

use crate::DEEPEST;
use crate::resolving::Resolved;
use eeprom::{Eeprom, EepromFault};
use object_table::find_stamp_into;
use record_store::SideReader;
use scql_base::{Conditions, Copied, NameList, ObjectKind};
use search_cond::bind;

/// Finds the table on which the base of a view rests, where there is one under at most so many views more. Each object is read
/// into one place, and each view's conditions are bound on the way back.
pub(crate) fn descend<B: Eeprom>(
    reader: &mut SideReader<'_, '_, B>,
    base: u32,
    most: usize,
    resolved: &mut Resolved,
) -> Result<bool, EepromFault>
    requires few { most < DEEPEST }
    ensures reached { (db : Database) (r : model.Resolved) → Holds reader.old db → resolved_below (suc most) db.objects base ≡ Some r
        → list_all (AreKnown r.all) r.filters ≡ true → IfOk result (λ there. (there ≡ true) × Reaches resolved.new r) }
    ensures few { IfOk result (λ there. there ≡ true → length resolved.new.filters.items ≤ most) }
    ensures reads { ReadsDatabase (λ db. cells_below (suc most) db.objects base) reader.old reader.new result }
{
    let mut place = None;
    find_stamp_into(reader, base, &mut place)?;
    let Some(object) = &place else {
        return Ok(false);
    };
    match &object.kind {
        ObjectKind::Table { columns } => {
            reach(object.stamp, columns, resolved);
            Ok(true)
        }
        ObjectKind::View {
            base,
            conditions,
            ..
        } => {
            if most == 0 {
                return Ok(false);
            }
            if !descend(reader, *base, most - 1, resolved)? {
                return Ok(false);
            }
            Ok(pass(conditions, resolved))
        }
        ObjectKind::Dictionary { .. } => Ok(false),
    }
}

/// A table is reached, under no view yet.
pub(crate) fn reach(stamp: u32, columns: &NameList, resolved: &mut Resolved)
    ensures table { resolved.new.table ≡ stamp }
    ensures all { resolved.new.all ≡ columns.now }
    ensures filters { resolved.new.filters.items ≡ [] }
{
    resolved.table = stamp;
    resolved.all = columns.copy();
    resolved.filters.clear();
}

/// Binds the conditions of a view to the columns of the table that was reached, and answers whether all of them are on these.
pub(crate) fn pass(conditions: &Conditions, resolved: &mut Resolved) -> bool
    requires room { length resolved.old.filters.items < DEEPEST }
    ensures passed { (r : model.Resolved) → Reaches resolved.old r → AreKnown r.all conditions.now ≡ true
        → (result ≡ true) × Reaches resolved.new (record r { filters = conditions.now ∷ r.filters }) }
    ensures one { length resolved.new.filters.items ≤ length resolved.old.filters.items + 1 }
{
    let Ok(filter) = bind(&resolved.all, conditions) else {
        return false;
    };
    resolved.filters.insert(0, filter);
    true
}
