// Searches among the users.
ghost use Rattle.std.specs.Prelude.{Some};
ghost use Rattle.record_store.specs.Tags as tags;
ghost use Rattle.record_store.specs.declared.tags.Tag.TheVariants as by;
ghost use Rattle.scql_model.specs.Rules.{is_named};
ghost use Rattle.catalog_codec.specs.Catalog.{user_kind};
ghost use Rattle.record_table.specs.Searching.{Finds, FindsStamp};

use eeprom::{Eeprom, EepromFault};
use record_store::{Found, SideReader, Tag, name_tag};
use record_table::{Wanted, find_by};
use scql_base::{Name, User};

/// The user of a name.
#[derive(Drop)]
struct Named(Name);

impl Wanted<User> for Named {
    ghost wants = { λ wanted user. is_named wanted.0 user };

    ghost tag_is = { λ wanted. Some (by.Name (tags.name_tag wanted.0)) };

    fn is(&self, entry: &User) -> bool {
        self.0.octets() == entry.name.octets()
    }

    fn tag(&self) -> Option<Tag> {
        Some(Tag::Name(name_tag(self.0.octets())))
    }
}

/// Finds the user of a stamp.
pub fn find_stamp<B: Eeprom>(
    reader: &mut SideReader<'_, '_, B>,
    stamp: u32,
) -> Result<Option<Found<User>>, EepromFault>
    ensures { FindsStamp user_kind stamp reader.old reader.new result }
{
    record_table::find_stamp(reader, stamp)
}

/// Finds the user of a name: of several that of the lowest slot.
pub fn find_name<B: Eeprom>(
    reader: &mut SideReader<'_, '_, B>,
    name: Name,
) -> Result<Option<Found<User>>, EepromFault>
    ensures { Finds user_kind (is_named name) (Some (by.Name (tags.name_tag name))) reader.old reader.new result }
{
    find_by(reader, &Named(name))
}
