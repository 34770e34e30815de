// What reading operations read.
ghost use Rattle.record_store.specs.Held.{IsOver};
ghost use Rattle.record_store.specs.HeldLaws.{IsOver-prop};
ghost use Rattle.row_index.specs.Index.{Indexes};
ghost use Rattle.row_index.specs.IndexLaws.{Indexes-prop};

use eeprom::Eeprom;
use record_store::{Side, Store};
use row_index::RowIndex;

/// One side of a store with the index of its rows, over the EEPROM in which they stand: what reading operations read.
#[derive(Drop)]
pub struct Reader<'a, B: Eeprom> {
    pub store: &'a Store,
    pub index: &'a RowIndex,
    pub bench: &'a mut B,
    pub side: Side,
    pub ghost over: { IsOver store.now (B.chip bench.now) } by { IsOver-prop store.now (B.chip bench.now) },
    pub ghost indexes: { Indexes index.now store.now (B.chip bench.now) } by { Indexes-prop index.now store.now (B.chip bench.now) },
}
