// Whether there is room for one more record.
ghost use Rattle.std.specs.Prelude.{◌≡◌, ◌+◌, ◌<◌, min};
ghost use Rattle.std.specs.List.{sum_by};
ghost use Rattle.scql_model.specs.Database as model;
ghost use Rattle.scql_model.specs.Edits.{cells_of_record};
ghost use Rattle.plain_database.specs.Effects.{has_room};

use crate::PlainDatabase;
use crate::record::Record;

/// How many cells the counter of stamps takes.
const COUNTER_CELLS: u32 = 1;

/// The last number of four octets, which is no stamp.
const STAMPS_END: u32 = 0xFFFF_FFFF;

impl PlainDatabase {
    /// How many cells all records take, or where they are more than a number of four octets tells, the greatest of these.
    pub(crate) fn weight(&self) -> u32
        ensures { result ≡ min (model.weight self.now) 0xFFFF_FFFF }
    {
        let cells = weigh(COUNTER_CELLS, self.users());
        let cells = weigh(cells, self.objects());
        let cells = weigh(cells, self.grants());
        weigh(cells, self.rows())
    }

    /// Whether a stamp is left, and room for a record that takes so many cells.
    pub(crate) fn has_room(&self, cells: u32) -> bool
        requires { cells < 65536 }
        ensures { result ≡ has_room self.now cells }
    {
        self.next != STAMPS_END && self.weight().saturating_add(cells) <= u32::from(self.cells)
    }
}

// These cells and those that records take, up to the greatest number of four octets.
fn weigh<R: Record>(cells: u32, records: &[R]) -> u32
    ensures { result ≡ min (cells + sum_by (λ r. cells_of_record (R.entry r)) records.now) 0xFFFF_FFFF }
{
    let mut all = cells;
    for record in records {
        all = all.saturating_add(record.cells());
    }
    all
}
