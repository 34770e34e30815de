// Grants in octets.
ghost use Rattle.std.specs.Prelude.{◌≡◌};

use crate::Record;
use crate::fields::privileges_at;
use eeprom::RecordOctets;
use row_codec::{number_and_rest, put_number};
use scql_base::Grant;

const MARK: u8 = Grant::MARK;

impl Record for Grant {
    ghost use Rattle.catalog_codec.specs.Catalog.{grant_kind};
    ghost use Rattle.catalog_codec.specs.CatalogLaws.{IsKind-grant};

    ghost kind = { grant_kind };

    ghost can_encode = { λ _. Unit {0} };

    fn has_mark(octet: u8) -> bool {
        octet == MARK
    }

    fn read(octets: &[u8]) -> Option<Grant> {
        let [MARK, octets @ ..] = octets else {
            return None;
        };
        let (stamp, rest) = number_and_rest(octets)?;
        let (object, rest) = number_and_rest(rest)?;
        let (grantee, rest) = number_and_rest(rest)?;
        let Some((privileges, rest)) = privileges_at(rest) else {
            return None;
        };
        if !rest.is_empty() {
            return None;
        }
        Some(Grant {
            stamp,
            object,
            grantee,
            privileges,
        })
    }

    fn encode(&self, out: &mut RecordOctets) {
        out.clear();
        out.push(MARK);
        put_number(out, self.stamp);
        put_number(out, self.object);
        put_number(out, self.grantee);
        out.push(self.privileges.bits);
    }

    fn stamp(&self) -> u32 {
        self.stamp
    }

    ghost lawful = { IsKind-grant };
}
