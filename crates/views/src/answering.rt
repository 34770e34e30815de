// A table or a view, down to its table, as an answer. The card doesn't go this way: it has one place for what is resolved.
ghost use Rattle.std.specs.Prelude.{◌≡◌, true, Some, IfOk};
ghost use Rattle.scql_model.specs.Database.{Database, object_stamped};
ghost use Rattle.scql_model.specs.Defining.{is_table_or_view};
ghost use Rattle.record_table.specs.Asking.{Holds};
ghost use Rattle.record_table.specs.Reading.{ReadsDatabase};
ghost use Rattle.views.specs.Below.{cells_under};
ghost use Rattle.views.specs.Resolved.{Resolves};

use crate::{Resolved, resolve_into};
use eeprom::{Eeprom, EepromFault};
use record_store::SideReader;
use scql_base::Object;

/// Finds the table on which a table or a view rests, and how its rows come from those of the table.
pub fn resolve<B: Eeprom>(
    reader: &mut SideReader<'_, '_, B>,
    object: &Object,
) -> Result<Resolved, EepromFault>
    ensures resolved { (db : Database) → Holds reader.old db
        → object_stamped db.objects object.now.stamp ≡ Some object.now → is_table_or_view object.now.kind ≡ true → IfOk result (Resolves db.objects object.now.stamp) }
    ensures reads { ReadsDatabase (λ db. cells_under db.objects object.now.kind) reader.old reader.new result }
{
    let mut resolved = Resolved::default();
    resolve_into(reader, object, &mut resolved)?;
    Ok(resolved)
}
