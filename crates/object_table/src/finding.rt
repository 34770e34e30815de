// Searches among the objects.
ghost use Rattle.std.specs.Prelude.{Some};
ghost use Rattle.record_store.specs.Tags as tags;
ghost use Rattle.record_store.specs.declared.tags.Tag.TheVariants as by;
ghost use Rattle.catalog_codec.specs.Catalog.{object_kind};
ghost use Rattle.object_table.specs.Named.{has_name};
ghost use Rattle.record_table.specs.Searching.{FindsInto, FindsStampInto};

use eeprom::{Eeprom, EepromFault};
use record_store::{SideReader, Tag, name_tag};
use record_table::{Wanted, find_by, find_into};
use scql_base::{Name, Object};

/// The object of a name.
#[derive(Drop)]
struct Named(Name);

impl Wanted<Object> for Named {
    ghost wants = { λ wanted object. has_name wanted.0 object };

    ghost tag_is = { λ wanted. Some (by.Name (tags.name_tag wanted.0)) };

    fn is(&self, entry: &Object) -> bool {
        self.0.octets() == entry.name.octets()
    }

    fn tag(&self) -> Option<Tag> {
        Some(Tag::Name(name_tag(self.0.octets())))
    }
}

/// Finds the object of a stamp and reads it into a place, where there is one: its slot is answered. Where there is none the place is empty.
pub fn find_stamp_into<B: Eeprom>(
    reader: &mut SideReader<'_, '_, B>,
    stamp: u32,
    place: &mut Option<Object>,
) -> Result<Option<u16>, EepromFault>
    ensures { FindsStampInto object_kind stamp reader.old reader.new place.new result }
{
    record_table::find_stamp_into(reader, stamp, place)
}

/// Finds the object of a name and reads it into a place, where there is one: of several that of the lowest slot, which is answered.
/// Where there is none the place is empty.
pub fn find_name_into<B: Eeprom>(
    reader: &mut SideReader<'_, '_, B>,
    name: Name,
    place: &mut Option<Object>,
) -> Result<Option<u16>, EepromFault>
    ensures { FindsInto object_kind (has_name name) (Some (by.Name (tags.name_tag name))) reader.old reader.new place.new result }
{
    find_into(reader, &Named(name), place)
}
