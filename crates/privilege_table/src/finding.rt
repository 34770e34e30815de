// Searches among the grants.
ghost use Rattle.std.specs.Prelude.{Some};
ghost use Rattle.record_store.specs.Tags as tags;
ghost use Rattle.record_store.specs.declared.tags.Tag.TheVariants as by;
ghost use Rattle.catalog_codec.specs.Catalog.{grant_kind};
ghost use Rattle.privilege_table.specs.Granted.{is_pair};
ghost use Rattle.record_table.specs.Searching.{Finds};

use eeprom::{Eeprom, EepromFault};
use record_store::{Found, SideReader, Tag, pair_tag};
use record_table::{Wanted, find_by};
use scql_base::Grant;

/// The grant on an object to one user, or to PUBLIC.
#[derive(Clone, Copy)]
struct Pair {
    object: u32,
    grantee: u32,
}

impl Wanted<Grant> for Pair {
    ghost wants = { λ wanted grant. is_pair wanted.object wanted.grantee grant };

    ghost tag_is = { λ wanted. Some (by.Name (tags.pair_tag wanted.object wanted.grantee)) };

    fn is(&self, entry: &Grant) -> bool {
        entry.object == self.object && entry.grantee == self.grantee
    }

    fn tag(&self) -> Option<Tag> {
        Some(Tag::Name(pair_tag(self.object, self.grantee)))
    }
}

/// Finds the grant on an object to one user, or to PUBLIC where that is 0: of several that of the lowest slot.
pub fn find_pair<B: Eeprom>(
    reader: &mut SideReader<'_, '_, B>,
    object: u32,
    grantee: u32,
) -> Result<Option<Found<Grant>>, EepromFault>
    ensures { Finds grant_kind (is_pair object grantee) (Some (by.Name (tags.pair_tag object grantee))) reader.old reader.new result }
{
    find_by(reader, &Pair { object, grantee })
}
