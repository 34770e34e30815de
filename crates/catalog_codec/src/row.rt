// Rows in octets.
ghost use Rattle.std.specs.Prelude.{◌≡◌};

use crate::Record;
use eeprom::RecordOctets;
use scql_base::RowRecord;

impl Record for RowRecord {
    ghost use Rattle.catalog_codec.specs.Kinds.{FitsChain};
    ghost use Rattle.catalog_codec.specs.Catalog.{row_kind};
    ghost use Rattle.catalog_codec.specs.CatalogLaws.{IsKind-row};

    ghost kind = { row_kind };

    ghost can_encode = { FitsChain row_kind };

    fn has_mark(octet: u8) -> bool {
        octet == RowRecord::MARK
    }

    fn read(octets: &[u8]) -> Option<RowRecord> {
        row_codec::decode(octets)
    }

    fn encode(&self, out: &mut RecordOctets) {
        row_codec::encode(self, out);
    }

    fn stamp(&self) -> u32 {
        self.stamp
    }

    ghost lawful = { IsKind-row };
}
