// What a card doesn't call: it claims slot by slot, and gathers the records as it does. The tests of the crates above open a store so.
ghost use Rattle.record_store.specs.Opens.{Opens};

use crate::{OpenRefusal, Opening, Store};
use cell_store::RecordOctets;
use eeprom::{Eeprom, Heap};

impl Store {
    /// Opens the store of an image, where it has one. A journal behind an open gate is replayed first. As many octets are read as
    /// begin the image, and as the cells of the records have.
    pub fn open<B: Eeprom>(alloc: Heap, bench: &mut B) -> Result<Store, OpenRefusal>
        ensures { Opens B.chip B.faults B.octets_read bench.old bench.new result }
    {
        let mut opening = Opening::new(alloc, bench)?;
        let mut octets = RecordOctets::new();
        for _slot in 0..opening.cells() {
            opening = opening.claim_next(bench, &mut octets)?;
        }
        Ok(opening.finish())
    }
}
