// PRESENT USER.
ghost use Rattle.std.specs.Prelude.{◌≡◌, ◌*◌, Some, IfOk, IfSome};
ghost use Rattle.eeprom.specs.Chip.{Becomes, RisesAtMost};
ghost use Rattle.eeprom.specs.Fault.{each_error};
ghost use Rattle.eeprom.specs.Frame.{Reads};
ghost use Rattle.eeprom.specs.StoreOf.{cell_size};
ghost use Rattle.record_store.specs.Held.{IsOver};
ghost use Rattle.record_store.specs.Tags as tags;
ghost use Rattle.record_store.specs.declared.tags.Tag.TheVariants as by;
ghost use Rattle.record_store.specs.declared.side.Side.TheVariants.{Committed};
ghost use Rattle.scql_model.specs.Database.{Database};
ghost use Rattle.scql_model.specs.Step.{session_named};
ghost use Rattle.catalog_codec.specs.Catalog.{user_kind};
ghost use Rattle.record_table.specs.Listed.{slots_of};
ghost use Rattle.record_table.specs.Making.{IsHeld};
ghost use Rattle.record_table.specs.Tagged.{cells_tagged};
ghost use Rattle.db_access.specs.Presenting.{session_presented};

use eeprom::{Eeprom, EepromFault};
use record_store::{Found, Side, SideReader, Store};
use scql_base::Name;
use user_table::find_name;

/// Who has a name.
#[derive(Clone, Copy, PartialEq, Eq, Debug)]
pub enum Presented {
    Unknown,
    /// The name is `PUBLIC`: nobody in particular.
    Public,
    /// The user of this stamp, who is proved where it has no secret.
    User { stamp: u32, proved: bool },
}

/// Finds who has a name in the committed database.
pub fn present<B: Eeprom>(
    store: &Store,
    bench: &mut B,
    name: Name,
) -> Result<Presented, EepromFault>
    requires over { IsOver store.now (B.chip bench.old) }
    ensures presented { (db : Database) → IsHeld store.now Committed (B.chip bench.old) db → IfOk result (λ presented. session_presented presented ≡ session_named db name) }
    ensures octets_read { IfOk result (λ _. IfSome (slots_of store.now Committed (B.chip bench.old))
        (λ slots. Becomes (RisesAtMost (cell_size * cells_tagged user_kind (Some (by.Name (tags.name_tag name))) slots)) (B.octets_read bench.old) (B.octets_read bench.new))) }
    ensures frame { Reads each_error B.chip B.faults bench.old bench.new result }
{
    if name.octets() == Name::PUBLIC {
        return Ok(Presented::Public);
    }
    let mut reader = SideReader {
        store,
        bench,
        side: Side::Committed,
    };
    let found = find_name(&mut reader, name)?;
    match found {
        Some(Found { value: user, .. }) => Ok(Presented::User {
            stamp: user.stamp,
            proved: user.secret.as_slice().is_empty(),
        }),
        None => Ok(Presented::Unknown),
    }
}
