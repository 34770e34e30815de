// A store that is being opened: its slots are claimed one after another, so that it is opened only where each has the chain of a
// record or none, and no cell is in two chains.
ghost use Rattle.std.specs.Prelude.{◌≡◌, ◌≢◌, ◌*◌, ◌<◌, IfSome, IfOk, IsErrOf, OnOk};
ghost use Rattle.eeprom.specs.Calls.{ReadsOnly};
ghost use Rattle.eeprom.specs.Chip.{Becomes, RisesAtMost};
ghost use Rattle.eeprom.specs.Frame.{HasRoom};
ghost use Rattle.eeprom.specs.StoreOf.{no_cell, cells_of, cell_size, longest_chain};
ghost use Rattle.cell_store.specs.Reading.{ReadsCells};
ghost use Rattle.cell_store.specs.Claims.{HasNoRecord};
ghost use Rattle.cell_store.specs.Cells.{AreLinkedIn, CountsCells};
ghost use Rattle.cell_store.specs.Faults.{is_claim_fault};
ghost use Rattle.record_store.specs.Opening.{IsOverSoFar, TakesSlot, slot_with};
ghost use Rattle.record_store.specs.Header.{IsHeader, IsHeaderOf};
ghost use Rattle.record_store.specs.Opens.{BeginsOpening, ClaimsNext, ClosesGate};

use crate::OpenRefusal;
use crate::common_runs::CommonRuns;
use crate::first_octets::keep_octet;
use crate::header::{Header, read_directory, read_header};
use crate::slot_tags::SlotTags;
use crate::touched::Touched;
use cell_store::{CellStore, ClaimRefusal, RecordOctets};
use eeprom::{Eeprom, Heap, ImageBench, NO_CELL};
use journal::{Entry, Journal};
use std::marker::Model;

/// A store that is being opened. Its slots are claimed one after another, each with its record. A refusal ends it.
#[derive(Drop)]
pub struct Opening {
    pub(crate) chains: CellStore,
    /// How many octets a row may have.
    pub(crate) row_limit: u16,
    pub(crate) committed: Vec<u16, Heap>,
    pub(crate) working: Vec<u16, Heap>,
    /// For each cell that the chain of a claimed slot begins at, the first octet of its record.
    pub(crate) first_octets: Vec<u8, Heap>,
    pub(crate) tags: SlotTags,
    /// The memory of transactions.
    pub(crate) touched: Touched,
    pub(crate) entries: Vec<Entry, Heap>,
    /// The memory of searches.
    pub(crate) common_runs: CommonRuns,
    /// How many slots were claimed, and how many cells their chains have.
    pub(crate) claimed: u16,
    pub(crate) weight: u16,
}

impl Model for Opening {
    ghost use Rattle.std.specs.Prelude.{◌≡◌};
    ghost use Rattle.std.specs.Vec.{vec_capacity};
    ghost use Rattle.record_store.specs.Kept.{HasMemory};
    ghost use Rattle.record_store.specs.Opening.{HeldSoFar, IsSoundSoFar};

    ghost Value = { HeldSoFar };

    ghost view = { λ opening. record { chains = opening.chains; row_limit = opening.row_limit; firsts = opening.committed.items; claimed = opening.claimed; weight = opening.weight; first_octets = opening.first_octets.items; tags = opening.tags.committed } };

    ghost invariant = { λ opening. (opening.working.items ≡ opening.committed.items) × (opening.tags.working ≡ opening.tags.committed) × HasMemory opening.chains.cells opening.touched (vec_capacity opening.entries) opening.common_runs × IsSoundSoFar (record { chains = opening.chains; row_limit = opening.row_limit; firsts = opening.committed.items; claimed = opening.claimed; weight = opening.weight; first_octets = opening.first_octets.items; tags = opening.tags.committed }) };
}

impl Opening {
    /// Begins to open the store of an image. A journal behind an open gate is replayed. All memory of the store is taken here.
    /// What only the beginning needs of the stack doesn't stand there while the slots are claimed.
    #[inline(never)]
    pub fn new<B: Eeprom>(alloc: Heap, bench: &mut B) -> Result<Opening, OpenRefusal>
        ensures { BeginsOpening B.chip B.faults B.octets_read bench.old bench.new result }
    {
        let header = read_header(bench)?;
        close_gate(bench, header)?;
        let committed = read_directory(alloc, bench, header)?;
        let working = Vec::from_slice(alloc, committed.as_slice())?;
        let first_octets = vec![in alloc; 0u8; 2 * header.cells as usize]?;
        let tags = SlotTags::with_room(alloc, header.cells)?;
        let touched = Touched::with_room(alloc, header.cells)?;
        let entries = Vec::with_capacity(alloc, header.cells as usize)?;
        let common_runs = CommonRuns::with_room(alloc, header.cells)?;
        let chains = CellStore::with_room(alloc, header.cells)?;
        Ok(Opening {
            chains,
            row_limit: header.row_limit,
            committed,
            working,
            first_octets,
            tags,
            touched,
            entries,
            common_runs,
            claimed: 0,
            weight: 0,
        })
    }

    /// The number of slots, and of cells that the records can have.
    pub fn cells(&self) -> u16
        ensures { CountsCells self.now.chains.cells result }
    {
        self.chains.cells()
    }

    /// How many octets a row may have: 240, or 1,020 on a card that was migrated.
    pub fn row_limit(&self) -> u16
        ensures { result ≡ self.now.row_limit }
    {
        self.row_limit
    }

    /// Claims the next slot, and hands out its record, or no octets where the slot is empty. As many octets are read as the
    /// cells of the record have.
    pub fn claim_next<B: Eeprom>(
        self,
        bench: &mut B,
        out: &mut RecordOctets,
    ) -> Result<Opening, OpenRefusal>
        requires left { self.claimed < self.chains.cells }
        requires over { IsOverSoFar self (B.chip bench.old) }
        ensures { ClaimsNext B.chip B.faults B.octets_read self out.new.items bench.old bench.new result }
    {
        let Opening {
            mut chains,
            row_limit,
            committed,
            working,
            mut first_octets,
            mut tags,
            touched,
            entries,
            common_runs,
            claimed,
            weight,
        } = self;
        let first = committed[claimed as usize];
        let count = claim_slot(&mut chains, bench, first, out)?;
        let weight = weight + count;
        if weight > chains.cells() {
            return Err(OpenRefusal::NotACard);
        }
        keep_octet(&mut first_octets, first, out.as_slice());
        tags.found(claimed, out.as_slice());
        Ok(Opening {
            chains,
            row_limit,
            committed,
            working,
            first_octets,
            tags,
            touched,
            entries,
            common_runs,
            claimed: claimed + 1,
            weight,
        })
    }
}

/// Replays the journal behind an open gate.
fn close_gate<B: Eeprom>(bench: &mut B, header: Header) -> Result<(), OpenRefusal>
    requires range { IsHeader (B.chip bench.old).still.size header }
    requires header { IfSome (B.chip bench.old).image (λ image. IsHeaderOf image header) }
    ensures { ClosesGate B.chip B.faults B.octets_read header bench.old bench.new result }
{
    if header.is_open {
        let cells = header.cells;
        Journal::replay(&mut ImageBench { bench, cells })?;
    }
    Ok(())
}

/// Claims the chain of a slot that begins at this cell, and answers how many cells it has: none where the slot is empty.
/// After a refusal the store of cells isn't to be used again.
fn claim_slot<B: Eeprom>(
    chains: &mut CellStore,
    bench: &mut B,
    first: u16,
    out: &mut RecordOctets,
) -> Result<u16, ClaimRefusal>
    requires room { HasRoom chains.old.cells (B.chip bench.old) }
    ensures takes { IfOk result (λ count. TakesSlot (B.chip bench.old).image chains.old chains.new first out.new.items count) }
    ensures linked { OnOk result (IfSome (B.chip bench.old).image (λ image. AreLinkedIn chains.old image → AreLinkedIn chains.new image)) }
    ensures count { IfOk result (λ count. count ≡ cells_of (slot_with out.new.items)) }
    ensures octets_read { IfOk result (λ count. Becomes (ReadsCells count) (B.octets_read bench.old) (B.octets_read bench.new)) }
    ensures bad_chain { IsErrOf result ClaimRefusal.BadChain → (first ≢ no_cell) × IfSome (B.chip bench.old).image (HasNoRecord chains.old first) }
    ensures reads { ReadsOnly is_claim_fault B.chip B.faults B.octets_read (RisesAtMost (cell_size * longest_chain)) bench.old bench.new result }
{
    if first == NO_CELL {
        out.clear();
        return Ok(0);
    }
    chains.claim_record(bench, first, out)
}
