// What a card doesn't call: it claims a chain together with its record, and counts the cells of its records itself.
ghost use Rattle.std.specs.Prelude.{◌≡◌, ◌≤◌, IfOk};
ghost use Rattle.eeprom.specs.Frame.{HasRoom};
ghost use Rattle.cell_store.specs.Claims.{ClaimsChain};
ghost use Rattle.cell_store.specs.Marks.{unmarked};

use crate::{CellStore, ClaimRefusal};
use eeprom::{Eeprom, RecordOctets};

impl CellStore {
    /// Claims the chain that begins at a cell, which the image has a record in, and answers how many cells it has.
    /// After a refusal the store of cells isn't to be used again.
    pub fn claim_chain<B: Eeprom>(&mut self, bench: &mut B, first: u16) -> Result<u16, ClaimRefusal>
        requires room { HasRoom self.old.cells (B.chip bench.old) }
        ensures claims { ClaimsChain B.chip B.faults B.octets_read first self.old self.new bench.old bench.new result }
        ensures some { IfOk result (λ count. 1 ≤ count) }
    {
        self.claim_record(bench, first, &mut RecordOctets::new())
    }

    /// How many cells are free.
    pub fn free_cells(&self) -> u16
        ensures { result ≡ unmarked self.now.used }
    {
        self.used.count_free()
    }
}
