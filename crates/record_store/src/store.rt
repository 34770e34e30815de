// A store of records, of which a directory in memory knows where each begins.
ghost use Rattle.std.specs.Prelude.{◌≡◌, ◌↔◌, ◌≤◌, ◌<◌, ℕ, List, Some, None, false, IsTrue, length, slice_index};
ghost use Rattle.eeprom.specs.StoreOf.{migrated_row_limit, most_cells, no_cell};
ghost use Rattle.eeprom.specs.StoreOf as image;
ghost use Rattle.record_store.specs.Tags.{HasTags, stamp_of};
ghost use Rattle.record_store.specs.Held.{firsts, tags_of, record_at, first_octet, StandsFor, IsOver, IsRowLimit};
ghost use Rattle.record_store.specs.Put.{MayPut, MayRemove, MayTakeOut, Puts, Removes};
ghost use Rattle.record_store.specs.Get.{EndsUse, FindsTagged, Gets, PassesOver, TellsWeight};
ghost use Rattle.cell_store.specs.Cells.{CountsCells};
ghost use Rattle.record_store.specs.Opens.{FinishesOpening};
ghost use Rattle.record_store.specs.Slots.{steps_without};
ghost use Rattle.record_store.specs.Transaction.{BeginsTransaction, CommitsTransaction, MayCommit, RollsBackTransaction};

use crate::common_runs::{CommonRuns, take_in_all};
use crate::entries::take_entries;
use crate::opening::Opening;
use crate::slot_tags::{SideTags, SlotTags};
use crate::slots::{copy_slots, free_replaced, named_or_empty, search_from, slots_in_use};
use crate::tags::{Tag, next_with};
use crate::touched::Touched;
use crate::{Side, StoreRefusal};
use cell_store::{CellRefusal, CellStore, RecordOctets, cells_for};
use eeprom::{Eeprom, EepromFault, Heap, ImageBench, NO_CELL};
use journal::{Entry, Journal};
use std::marker::Model;

#[derive(Drop)]
pub struct Store {
    chains: CellStore,
    /// How many octets a row may have.
    row_limit: u16,
    committed: Vec<u16, Heap>,
    working: Vec<u16, Heap>,
    begun: bool,
    /// For each cell that the chain of a record begins at, the first octet of the record.
    first_octets: Vec<u8, Heap>,
    /// For each slot the tag of its record, on both sides.
    tags: SlotTags,
    /// How many cells the records of each side have.
    committed_weight: u16,
    working_weight: u16,
    /// Behind so many slots all are empty on both sides.
    slots_in_use: u16,
    /// From where an empty slot is searched.
    next_slot: u16,
    /// The runs of slots with common records.
    common_runs: CommonRuns,
    /// The slots that a transaction touched: in all others both sides have the same chains.
    touched: Touched,
    /// The entries of a commit, of which only the memory is kept.
    entries: Vec<Entry, Heap>,
}

impl Model for Store {
    ghost use Rattle.std.specs.Vec.{vec_capacity};
    ghost use Rattle.record_store.specs.Held.{Held};
    ghost use Rattle.record_store.specs.Kept.{IsInMemory};

    ghost Value = { Held };

    ghost view = { λ store. record { chains = store.chains; row_limit = store.row_limit; committed = store.committed.items; working = store.working.items; begun = store.begun; first_octets = store.first_octets.items; tags = store.tags } };

    ghost invariant = { λ store. IsInMemory (record { chains = store.chains; row_limit = store.row_limit; committed = store.committed.items; working = store.working.items; begun = store.begun; first_octets = store.first_octets.items; tags = store.tags }) store.committed_weight store.working_weight store.slots_in_use store.touched (vec_capacity store.entries) store.common_runs };
}

impl Opening {
    /// The store, once all slots were claimed.
    pub fn finish(mut self) -> Store
        requires all { self.claimed ≡ self.chains.cells }
        ensures { FinishesOpening self result }
    {
        let firsts = self.committed.as_slice();
        take_in_all(&mut self.common_runs, firsts, self.first_octets.as_slice());
        let slots_in_use = slots_in_use(firsts);
        Store {
            chains: self.chains,
            row_limit: self.row_limit,
            committed: self.committed,
            working: self.working,
            begun: false,
            first_octets: self.first_octets,
            tags: self.tags,
            committed_weight: self.weight,
            working_weight: self.weight,
            slots_in_use,
            next_slot: slots_in_use,
            common_runs: self.common_runs,
            touched: self.touched,
            entries: self.entries,
        }
    }
}

impl Store {
    /// The number of slots, and of cells that the records can have.
    pub fn cells(&self) -> u16
        ensures { CountsCells self.now.chains.cells result }
    {
        self.chains.cells()
    }

    /// How many octets a row may have: 240, or 1,020 on a card that was migrated.
    pub fn row_limit(&self) -> u16
        ensures limit { result ≡ self.now.row_limit }
        ensures one { IsRowLimit result }
        ensures most { result ≤ migrated_row_limit }
    {
        self.row_limit
    }

    /// How many cells the records of a side have.
    pub fn weight(&self, side: Side) -> u16
        ensures { TellsWeight self.now side result }
    {
        match side {
            Side::Committed => self.committed_weight,
            Side::Working => self.working_weight,
        }
    }

    /// How many slots at the front may have a record: all behind these are empty on both sides.
    pub fn slots_in_use(&self) -> u16
        ensures { EndsUse self.now result }
    {
        self.slots_in_use
    }

    /// The next slot from this one on that may have another record than a common one: the slots before it have common ones on both sides, or none.
    pub fn end_of_common(&self, slot: u16) -> u16
        ensures { PassesOver self.now slot result }
    {
        self.common_runs.end(slot)
    }

    /// The first octet of the record of a slot. Nothing is read.
    pub fn first_octet(&self, side: Side, slot: u16) -> Option<u8>
        requires slot { slot < self.now.chains.cells }
        ensures octet { (image : List ℕ) → StandsFor self.now image → result ≡ first_octet (record_at self.now side slot image) }
        ensures empty { (result ≡ None) ↔ (slice_index (firsts self.now side) slot ≡ no_cell) }
    {
        let first = self.first_cell(side, slot);
        if first == NO_CELL {
            return None;
        }
        Some(self.first_octets[first as usize])
    }

    /// The next slot from this one on that has a record of this tag or stamp, or none: the records of the slots before it have other
    /// ones. Nothing is read.
    pub fn next_tagged(&self, side: Side, tag: Tag, slot: u16) -> u16
        ensures { FindsTagged self.now side tag slot result }
    {
        let tags = self.side_tags(side);
        match tag {
            Tag::Name(tag) => next_with(tags.names(), tag, slot),
            Tag::Stamp(stamp) => next_with(tags.stamps(), stamp, slot),
        }
    }

    /// Of each slot the stamp of its record; of an empty slot it may be any. Nothing is read.
    pub fn stamps(&self, side: Side) -> &[u32]
        ensures { (image : List ℕ) (slot : ℕ) (octets : List ℕ) → StandsFor self.now image → record_at self.now side slot image ≡ Some octets → slice_index result.now slot ≡ stamp_of octets }
    {
        self.side_tags(side).stamps()
    }

    /// Reads the record of a slot, and answers whether there is one.
    pub fn get<B: Eeprom>(
        &self,
        bench: &mut B,
        side: Side,
        slot: u16,
        out: &mut RecordOctets,
    ) -> Result<bool, EepromFault>
        requires over { IsOver self.now (B.chip bench.old) }
        requires slot { slot < self.now.chains.cells }
        ensures { Gets B.chip B.faults B.octets_read self.now side slot out.new.items bench.old bench.new result }
    {
        let first = self.first_cell(side, slot);
        if first == NO_CELL {
            out.clear();
            return Ok(false);
        }
        self.chains.read_chain(bench, first, out)?;
        Ok(true)
    }

    /// Begins a transaction, whose records are those that were committed.
    pub fn begin(&mut self)
        requires idle { self.old.begun ≡ false }
        ensures { BeginsTransaction self.old self.new }
    {
        self.begun = true;
    }

    /// Puts a record into a slot of the working side, the one that is named or else an empty one, and answers which.
    /// What is committed stays. After a fault the store in memory isn't to be used again.
    pub fn put<B: Eeprom>(
        &mut self,
        bench: &mut B,
        slot: Option<u16>,
        octets: &[u8],
    ) -> Result<u16, StoreRefusal>
        requires { MayPut slot octets.now self.old (B.chip bench.old) }
        ensures { Puts B.chip B.faults slot octets.now self.old self.new bench.old bench.new result }
    {
        let next = self.next_slot;
        let named = slot;
        let Some(slot) = named_or_empty(named, self.working.as_slice(), next) else {
            return Err(StoreRefusal::Full);
        };
        let weight = self.weight_without(slot);
        let count = cells_for(octets.len());
        if weight + count > self.chains.cells() {
            return Err(StoreRefusal::Full);
        }
        self.take_out(slot, weight);
        match self.chains.write_chain(bench, octets) {
            Ok(first) => {
                self.touched.touch(slot);
                self.working[slot as usize] = first;
                self.first_octets[first as usize] = octets[0];
                self.tags.put(slot, octets);
                self.common_runs.take_in(slot, octets[0]);
                self.working_weight = weight + count;
                self.slots_in_use = self.slots_in_use.max(slot + 1);
                self.next_slot = search_from(named, slot, next);
                Ok(slot)
            }
            Err(CellRefusal::Fault) => Err(StoreRefusal::Fault),
            Err(CellRefusal::NoCell) => unreachable!(),
        }
    }

    /// Takes the record out of a slot of the working side, where there is one. Its chain is freed, unless it is the one that was
    /// committed. What is committed stays.
    pub fn remove(&mut self, slot: u16)
        requires { MayRemove slot self.old }
        ensures { Removes slot self.old self.new }
    {
        let weight = self.weight_without(slot);
        self.take_out(slot, weight);
    }

    /// The same, where it is known how many cells the working records have without that of the slot.
    fn take_out(&mut self, slot: u16, weight: u16)
        requires { MayTakeOut slot weight self.old }
        ensures { Removes slot self.old self.new }
    {
        self.touched.touch(slot);
        let first = self.working[slot as usize];
        if first != self.committed[slot as usize] {
            self.chains.free_chain(first);
        }
        self.working[slot as usize] = NO_CELL;
        self.working_weight = weight;
    }

    /// How many cells the working records have without that of a slot.
    fn weight_without(&self, slot: u16) -> u16
        requires { MayRemove slot self.now }
        ensures weight { result ≡ steps_without self.now.chains.links self.now.working slot }
        ensures few { result ≤ self.now.chains.cells }
        ensures many { self.now.chains.cells ≤ most_cells }
    {
        self.working_weight - self.chains.length_of_chain(self.working[slot as usize])
    }

    /// Commits the transaction: its records are written down as the store's, in one step. The journal gets an entry for each slot
    /// that has another chain now; as many octets are written as 4, and 6 for each of these.
    /// After a fault the store in memory is unchanged, and the image has its committed or its working records.
    pub fn commit<B: Eeprom>(&mut self, bench: &mut B) -> Result<(), EepromFault>
        requires { MayCommit self.old (B.chip bench.old) }
        ensures { CommitsTransaction B.chip B.faults self.old self.new bench.old bench.new result }
    {
        self.touched.sort();
        let slots = self.touched.slots();
        let working = self.working.as_slice();
        take_entries(&mut self.entries, slots, self.committed.as_slice(), working);
        let mut journal = ImageBench {
            bench,
            cells: self.chains.cells(),
        };
        Journal::commit(&mut journal, self.entries.as_slice())?;
        free_replaced(&mut self.chains, slots, self.committed.as_slice(), working);
        copy_slots(slots, working, &mut self.committed);
        self.tags.commit(slots);
        self.touched.clear();
        self.committed_weight = self.working_weight;
        self.begun = false;
        Ok(())
    }

    /// Ends the transaction, and what was committed stays.
    pub fn rollback(&mut self)
        requires begun { IsTrue self.old.begun }
        ensures { RollsBackTransaction self.old self.new }
    {
        let slots = self.touched.slots();
        let committed = self.committed.as_slice();
        free_replaced(&mut self.chains, slots, self.working.as_slice(), committed);
        copy_slots(slots, committed, &mut self.working);
        self.tags.rollback(slots);
        self.touched.clear();
        self.working_weight = self.committed_weight;
        self.begun = false;
    }

    fn first_cell(&self, side: Side, slot: u16) -> u16
        requires slot { slot < self.now.chains.cells }
        ensures first { result ≡ slice_index (firsts self.now side) slot }
        ensures there { slot < length (firsts self.now side) }
    {
        self.first_cells(side)[slot as usize]
    }

    /// The first cell of each slot.
    fn first_cells(&self, side: Side) -> &[u16]
        ensures firsts { result.now ≡ firsts self.now side }
        ensures count { length result.now ≡ self.now.chains.cells }
    {
        match side {
            Side::Working if self.begun => self.working.as_slice(),
            _ => self.committed.as_slice(),
        }
    }

    /// The tags of each slot's record.
    fn side_tags(&self, side: Side) -> &SideTags
        ensures tags { result.now ≡ tags_of self.now side }
        ensures count { HasTags self.now.chains.cells result.now }
        ensures few { self.now.chains.cells ≤ most_cells }
        ensures none { (image : List ℕ) (slot : ℕ) → StandsFor self.now image → self.now.chains.cells ≤ slot → record_at self.now side slot image ≡ None }
    {
        match side {
            Side::Working if self.begun => self.tags.working(),
            _ => self.tags.committed(),
        }
    }
}
