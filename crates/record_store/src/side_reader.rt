// One side of a store, and the EEPROM in which it stands.
ghost use Rattle.record_store.specs.Held.{IsOver};
ghost use Rattle.record_store.specs.HeldLaws.{IsOver-prop};

use crate::{Side, Store};
use eeprom::Eeprom;

/// One side of a store, over the EEPROM in which it stands: its records are read there.
#[derive(Drop)]
pub struct SideReader<'s, 'b, B: Eeprom> {
    pub store: &'s Store,
    pub bench: &'b mut B,
    pub side: Side,
    pub ghost over: { IsOver store.now (B.chip bench.now) } by { IsOver-prop store.now (B.chip bench.now) },
}
