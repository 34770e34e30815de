// The next row of a dictionary of users.
ghost use Rattle.std.specs.Prelude.{IfOk};
ghost use Rattle.scql_base.specs.declared.words.Subject.TheVariants.{Users};
ghost use Rattle.scql_model.specs.Database.{Database};
ghost use Rattle.scql_model.specs.Dictionaries.{rows_told};
ghost use Rattle.record_table.specs.Asking.{Holds};
ghost use Rattle.record_table.specs.Reading.{ReadsSide};
ghost use Rattle.dictionaries.specs.Told.{IsNext, most_cells_read};

use crate::names::user_name;
use crate::rows::user_row;
use crate::telling::TellsOf;
use eeprom::{Eeprom, EepromFault};
use record_store::SideReader;
use record_table::next_by;
use scql_base::{Row, User};

/// The user of the least stamp above a stamp of whom a dictionary tells: its stamp, and its row.
pub(crate) fn next_user<B: Eeprom>(
    reader: &mut SideReader<'_, '_, B>,
    owner: u32,
    stamp: u32,
    out: &mut Row,
) -> Result<Option<u32>, EepromFault>
    ensures next { (db : Database) → Holds reader.old db → IfOk result (λ next. IsNext (rows_told db owner Users) stamp next out.new) }
    ensures reads { ReadsSide (most_cells_read reader.old.store.now.chains.cells Users) reader.old reader.new result }
{
    let Some(found) = next_by::<User, TellsOf, B>(reader, stamp, &TellsOf(owner))? else {
        return Ok(None);
    };
    let name = user_name(reader, found.value.owner)?;
    *out = user_row(&found.value, &name);
    Ok(Some(found.value.stamp))
}
