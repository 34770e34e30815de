// The names of users and objects of which the records of a dictionary speak.
ghost use Rattle.std.specs.Prelude.{◌≡◌, IfOk, option_map};
ghost use Rattle.scql_model.specs.Database.{Database};
ghost use Rattle.scql_model.specs.Dictionaries as model;
ghost use Rattle.catalog_codec.specs.Catalog.{user_kind, object_kind};
ghost use Rattle.record_table.specs.Asking.{Holds};
ghost use Rattle.record_table.specs.Listed.{cells_marked};
ghost use Rattle.record_table.specs.Reading.{ReadsSide};
ghost use Rattle.dictionaries.specs.Told.{name_or_none};

use eeprom::{Eeprom, EepromFault};
use record_store::{Found, SideReader};
use scql_base::{Copied, Name, Object, User};

/// The name of the user of a stamp.
pub(crate) fn user_name<B: Eeprom>(
    reader: &mut SideReader<'_, '_, B>,
    stamp: u32,
) -> Result<Option<Name>, EepromFault>
    ensures name { (db : Database) → Holds reader.old db → IfOk result (λ name. name_or_none name ≡ model.user_name db stamp) }
    ensures reads { ReadsSide (cells_marked user_kind) reader.old reader.new result }
{
    let found = user_table::find_stamp(reader, stamp)?;
    Ok(name_of_user(found))
}

fn name_of_user(found: Option<Found<User>>) -> Option<Name>
    ensures { result ≡ option_map (λ user. user.name) (option_map (λ found. found.value) found) }
{
    let found = found?;
    Some(found.value.name)
}

/// The name of the object of a stamp. It isn't inlined, so that the object's place stands in no other frame.
#[inline(never)]
pub(crate) fn object_name<B: Eeprom>(
    reader: &mut SideReader<'_, '_, B>,
    stamp: u32,
) -> Result<Option<Name>, EepromFault>
    ensures name { (db : Database) → Holds reader.old db → IfOk result (λ name. name_or_none name ≡ model.object_name db stamp) }
    ensures reads { ReadsSide (cells_marked object_kind) reader.old reader.new result }
{
    let mut place = None;
    object_table::find_stamp_into(reader, stamp, &mut place)?;
    Ok(name_of_object(&place))
}

fn name_of_object(place: &Option<Object>) -> Option<Name>
    ensures { result ≡ option_map (λ object. object.name) place.now }
{
    match place {
        Some(object) => Some(object.name.copy()),
        None => None,
    }
}
