// Where a row stands.
ghost use Rattle.std.specs.Prelude.{◌≡◌, ◌<◌};
ghost use Rattle.row_index.specs.Places.{place_key, place_stamp};
ghost use Rattle.row_index.specs.Places as places;

/// The stamp of a row, the stamp of its table, and the slot of its record.
#[derive(Clone, Copy)]
pub struct RowPlace {
    pub stamp: u32,
    pub table: u32,
    pub slot: u16,
}

impl RowPlace {
    // The number by which rows are in order.
    pub(crate) fn key(&self) -> u64
        ensures key { result ≡ place_key self.now }
        ensures fits { place_stamp self.now < 4294967296 }
    {
        key_in_table(self.table, self.stamp)
    }
}

// A table and a stamp in one number.
pub(crate) fn key_in_table(table: u32, stamp: u32) -> u64
    ensures { result ≡ places.key_in_table table stamp }
{
    u64::from(table) * 0x1_0000_0000 + u64::from(stamp)
}
