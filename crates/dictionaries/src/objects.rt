// The next row of a dictionary of objects.
ghost use Rattle.std.specs.Prelude.{◌≡◌, IfOk};
ghost use Rattle.scql_base.specs.declared.words.Subject.TheVariants.{Objects};
ghost use Rattle.scql_model.specs.Database.{Database};
ghost use Rattle.scql_model.specs.Dictionaries.{base_told, rows_told};
ghost use Rattle.catalog_codec.specs.Catalog.{object_kind};
ghost use Rattle.record_table.specs.Asking.{Holds};
ghost use Rattle.record_table.specs.Listed.{cells_marked};
ghost use Rattle.record_table.specs.Reading.{ReadsSide};
ghost use Rattle.dictionaries.specs.Told.{IsNext, base_named, most_cells_read};

use crate::names::{object_name, user_name};
use crate::rows::object_row;
use crate::telling::TellsOf;
use eeprom::{Eeprom, EepromFault};
use record_store::SideReader;
use record_table::next_by;
use scql_base::{Name, Object, ObjectKind, Row};

/// The object of the least stamp above a stamp of which a dictionary tells: its stamp, and its row.
pub(crate) fn next_object<B: Eeprom>(
    reader: &mut SideReader<'_, '_, B>,
    owner: u32,
    stamp: u32,
    out: &mut Row,
) -> Result<Option<u32>, EepromFault>
    ensures next { (db : Database) → Holds reader.old db → IfOk result (λ next. IsNext (rows_told db owner Objects) stamp next out.new) }
    ensures reads { ReadsSide (most_cells_read reader.old.store.now.chains.cells Objects) reader.old reader.new result }
{
    let Some(found) = next_by::<Object, TellsOf, B>(reader, stamp, &TellsOf(owner))? else {
        return Ok(None);
    };
    let name = user_name(reader, found.value.owner)?;
    let base = base_name(reader, &found.value.kind)?;
    *out = object_row(&found.value, &name, &base);
    Ok(Some(found.value.stamp))
}

// The name of a view's base.
fn base_name<B: Eeprom>(
    reader: &mut SideReader<'_, '_, B>,
    kind: &ObjectKind,
) -> Result<Option<Name>, EepromFault>
    ensures name { (db : Database) → Holds reader.old db → IfOk result (λ name. base_named kind.now name ≡ base_told db kind.now) }
    ensures reads { ReadsSide (cells_marked object_kind) reader.old reader.new result }
{
    match kind {
        ObjectKind::View { base, .. } => object_name(reader, *base),
        ObjectKind::Table { .. } | ObjectKind::Dictionary { .. } => Ok(None),
    }
}
