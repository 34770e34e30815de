// The counter in octets.
ghost use Rattle.std.specs.Prelude.{◌≡◌};

use crate::{Counter, Record};
use eeprom::RecordOctets;
use row_codec::{number_and_rest, put_number};

const MARK: u8 = Counter::MARK;

impl Record for Counter {
    ghost use Rattle.catalog_codec.specs.Catalog.{counter_kind};
    ghost use Rattle.catalog_codec.specs.CatalogLaws.{IsKind-counter};

    ghost kind = { counter_kind };

    ghost can_encode = { λ _. Unit {0} };

    fn has_mark(octet: u8) -> bool {
        octet == MARK
    }

    fn read(octets: &[u8]) -> Option<Counter> {
        let [MARK, octets @ ..] = octets else {
            return None;
        };
        let (next, rest) = number_and_rest(octets)?;
        if rest.is_empty() {
            Some(Counter { next })
        } else {
            None
        }
    }

    fn encode(&self, out: &mut RecordOctets) {
        out.clear();
        out.push(MARK);
        put_number(out, self.next);
    }

    fn stamp(&self) -> u32 {
        self.next
    }

    ghost lawful = { IsKind-counter };
}
