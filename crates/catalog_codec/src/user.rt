// Users in octets.
ghost use Rattle.std.specs.Prelude.{◌≡◌};

use crate::Record;
use crate::fields::{name_at, profile_at, secret_at, tries_at};
use crate::writing::put_text;
use eeprom::RecordOctets;
use row_codec::{number_and_rest, put_number};
use scql_base::User;

const MARK: u8 = User::MARK;

impl Record for User {
    ghost use Rattle.catalog_codec.specs.Catalog.{user_kind};
    ghost use Rattle.catalog_codec.specs.CatalogLaws.{IsKind-user};

    ghost kind = { user_kind };

    ghost can_encode = { λ _. Unit {0} };

    fn has_mark(octet: u8) -> bool {
        octet == MARK
    }

    fn read(octets: &[u8]) -> Option<User> {
        let [MARK, octets @ ..] = octets else {
            return None;
        };
        let (stamp, rest) = number_and_rest(octets)?;
        let (owner, rest) = number_and_rest(rest)?;
        let (profile, rest) = profile_at(rest)?;
        let (tries, rest) = tries_at(rest)?;
        let (name, rest) = name_at(rest)?;
        let (secret, rest) = secret_at(rest)?;
        if !rest.is_empty() {
            return None;
        }
        Some(User {
            stamp,
            name,
            profile,
            owner,
            secret,
            tries,
        })
    }

    fn encode(&self, out: &mut RecordOctets) {
        out.clear();
        out.push(MARK);
        put_number(out, self.stamp);
        put_number(out, self.owner);
        out.push(self.profile.code());
        out.push(self.tries);
        put_text(out, self.name.octets());
        put_text(out, self.secret.as_slice());
    }

    fn stamp(&self) -> u32 {
        self.stamp
    }

    ghost lawful = { IsKind-user };
}
