// The records of a store, gathered as it is opened: one counter, and what is kept of all others, tested as those of a database.
// The rows among them fill the index.
ghost use Rattle.std.specs.Prelude.{◌≡◌, ◌≢◌, ◌⊎◌, ◌+◌, ◌*◌, ◌≤◌, ◌<◌, ℕ, [], ◌++◌, Some, None, false, true, length, is_some, IfSome, IfOk, IfErr, OnOk, IsErrOf};
ghost use Rattle.std.specs.List.{cons_option};
ghost use Rattle.std.specs.Vec.{vec_capacity};
ghost use Rattle.eeprom.specs.Chip.{Becomes, Chip};
ghost use Rattle.eeprom.specs.StoreOf.{store_of, is_gate_open};
ghost use Rattle.eeprom.specs.Slots.{in_order, in_slot};
ghost use Rattle.cell_store.specs.Reading.{ReadsAtMost};
ghost use Rattle.record_store.specs.Faults.{is_open_fault};
ghost use Rattle.record_store.specs.Held.{IsOver, stored};
ghost use Rattle.record_store.specs.Recovery.{Recovers};
ghost use Rattle.record_store.specs.Opening.{ReadsFront, most_octets, slot_with};
ghost use Rattle.record_store.specs.declared.side.Side.TheVariants.{Committed};
ghost use Rattle.record_table.specs.Listed.{slots_of};
ghost use Rattle.scql_model.specs.Records.{counter_in};
ghost use Rattle.scql_model.specs.Database.{Database};
ghost use Rattle.scql_model.specs.Opens.{Opens};
ghost use Rattle.row_index.specs.Index.{ArePlacesIn, HasRows};
ghost use Rattle.row_index.specs.SideRows.{no_rows};
ghost use Rattle.row_table.specs.Tables.{Stand};
ghost use Rattle.card.specs.Card.{HoldsSome};
ghost use Rattle.scql_base.specs.declared.records.TheConstants.RowRecord.{LONGEST};
ghost use Rattle.card.specs.KeptRecords.{places_in, stamp_of};
ghost use Rattle.card.specs.Opening.{PassTest, ReadsCard, is_admitted, record_in};
ghost use Rattle.card.specs.Sessions.{sessions_of};
ghost use Rattle.scql_model.specs.Machine.{start};

use crate::kept_records::KeptRecords;
use crate::rooms::{Rooms, room_for_a_command};
use crate::slot_record::SlotRecord;
use crate::sorted_records::SortedRecords;
use crate::validity::are_valid;
use eeprom::{Eeprom, Heap};
use record_store::{OpenRefusal, Opening, RecordOctets, Store};
use row_index::{RowIndex, RowPlace};
use row_table::Tables;
use scql_base::Command;
use std::alloc::AllocError;

/// A store that was opened with the index of its rows, and the rooms of a card over it.
#[derive(Drop)]
pub(crate) struct Opened {
    pub tables: Tables,
    pub rooms: Rooms,
    pub command: Box<Command, Heap>,
}

// What was found in the slots so far.
#[derive(Drop)]
struct Gathered {
    counter: Option<u32>,
    records: KeptRecords,
}

// What is filled once all records were read. Its memory is taken before the first.
#[derive(Drop)]
struct Room {
    index: RowIndex,
    places: Vec<RowPlace, Heap>,
    numbers: Vec<u64, Heap>,
}

/// Opens the store of an image, where its records are those of a valid database. A journal behind an open gate is replayed first.
/// All memory is taken before the first record is read: beyond what a card keeps, for each cell 30 octets and the place of a record,
/// the place of a row and a number, which are at most 2,048 * (30 + 12 + 12 + 8) = 126,976 octets.
pub(crate) fn open_records<B: Eeprom>(alloc: Heap, bench: &mut B) -> Result<Opened, OpenRefusal>
    ensures stand { IfOk result (λ opened. Stand opened.tables (B.chip bench.new)) }
    ensures told { OnOk result (is_some (B.chip bench.new).image ≡ is_some (B.chip bench.old).image) }
    ensures stored { IfOk result (λ opened. IfSome (B.chip bench.new).image (λ image. store_of image ≡ stored opened.tables.store Committed image)) }
    ensures idle { IfOk result (λ opened. opened.tables.store.begun ≡ false) }
    ensures holds { IfOk result (λ opened. HoldsSome opened.tables.store Committed (B.chip bench.new)) }
    ensures four { IfOk result (λ opened. (length opened.rooms.sessions.value ≡ 4) × (length opened.rooms.chains.value ≡ 4)) }
    ensures starts { IfOk result (λ opened. (db : Database) → sessions_of opened.rooms.sessions.value opened.rooms.chains.value ≡ (start db).sessions) }
    ensures nothing_found { IfOk result (λ opened. opened.rooms.found.value ≡ record { last = None; scan = None }) }
    ensures opens { OnOk result (IfSome (B.chip bench.old).image (λ image. (db : Database) × Opens image db)) }
    // Where the gate is closed as many octets are read as begin the image, and as the cells of the records have.
    ensures octets_read { OnOk result (IfSome (B.chip bench.old).image (λ image. (db : Database) → Opens image db → is_gate_open image ≡ false
        → Becomes (ReadsCard db) (B.octets_read bench.old) (B.octets_read bench.new))) }
    ensures most_read { Becomes (ReadsAtMost most_octets) (B.octets_read bench.old) (B.octets_read bench.new) }
    // No record was read by then.
    ensures no_memory { IsErrOf result OpenRefusal.NoMemory → (n : ℕ) × ReadsFront n (B.chip bench.old).image (B.octets_read bench.old) (B.octets_read bench.new) }
    ensures not_a_card { IsErrOf result OpenRefusal.NotACard → IfSome (B.chip bench.old).image (λ image. (db : Database) → Opens image db → ⊥) }
    ensures frame { Recovers is_open_fault B.chip B.faults bench.old bench.new result }
{
    let mut opening = Opening::new(alloc, bench)?;
    let cells = opening.cells();
    let mut room = Room::for_cells(alloc, cells)?;
    let rooms = Rooms::new(alloc)?;
    let command = room_for_a_command(alloc)?;
    let mut gathered = Gathered {
        counter: None,
        records: KeptRecords::for_cells(alloc, cells)?,
    };
    let mut octets = RecordOctets::new();
    for slot in 0..cells {
        opening = opening.claim_next(bench, &mut octets)?;
        gathered.add_slot(slot, opening.row_limit(), &octets)?;
    }
    let store = opening.finish();
    let Some(records) = gathered.tested(&mut room.numbers) else {
        return Err(OpenRefusal::NotACard);
    };
    let index = room.index_of(&store, &records);
    Ok(Opened {
        tables: Tables { store, index },
        rooms,
        command,
    })
}

impl Room {
    // Room for what a store of so many cells has.
    fn for_cells(alloc: Heap, cells: u16) -> Result<Room, AllocError>
        ensures index { IfOk result (λ room. room.index ≡ record { cells = cells; begun = false; committed = no_rows cells; working = no_rows cells }) }
        ensures places { IfOk result (λ room. (room.places.items ≡ []) × (vec_capacity room.places ≡ cells)) }
        ensures numbers { IfOk result (λ room. vec_capacity room.numbers ≡ cells) }
    {
        Ok(Room {
            index: RowIndex::with_room(alloc, cells)?,
            places: Vec::with_capacity(alloc, usize::from(cells))?,
            numbers: Vec::with_capacity(alloc, usize::from(cells))?,
        })
    }

    // The index of the rows of a store, which are those among these records.
    fn index_of(self, store: &Store, records: &SortedRecords) -> RowIndex
        requires idle { self.index.begun ≡ false }
        requires no_rows { self.index.committed.slots ≡ [] }
        requires no_places { self.places.items ≡ [] }
        requires room { length records.now.items ≤ vec_capacity self.places }
        ensures cells { result.cells ≡ self.index.cells }
        ensures idle { result.begun ≡ false }
        ensures both { result.working ≡ result.committed }
        ensures filled { (chip : Chip) → IsOver store.now chip → IfSome (slots_of store.now Committed chip)
            (λ slots. ArePlacesIn self.index.cells (places_in records.now.items) slots → HasRows result.cells result.committed slots) }
    {
        let Room {
            mut index,
            mut places,
            numbers: _,
        } = self;
        for nth in 0..records.len() {
            if let Some(place) = records.at(nth).place() {
                places.push_reserved(place);
            }
        }
        index.fill(store, places.as_slice());
        index
    }
}

impl Gathered {
    // Adds the record of a slot, where it has one, on a card with this row limit. Neither this nor the test is inlined: the record that is read here has its
    // place only for as long as that takes, and not while all are tested.
    #[inline(never)]
    fn add_slot(&mut self, slot: u16, row_limit: u16, octets: &[u8]) -> Result<(), OpenRefusal>
        requires short { length octets.now ≤ LONGEST }
        requires room { length self.old.records.items < self.old.records.cells }
        requires fits { self.old.records.size + length octets.now ≤ 30 * self.old.records.cells }
        ensures admitted { OnOk result (is_admitted row_limit (slot_with octets.now) ≡ true) }
        ensures counters { OnOk result (cons_option self.new.counter [] ≡ cons_option self.old.counter (cons_option (in_slot counter_in (slot_with octets.now)) [])) }
        ensures records { OnOk result (self.new.records.items ≡ self.old.records.items ++ cons_option (in_slot (record_in slot) (slot_with octets.now)) []) }
        ensures few { OnOk result (length self.new.records.items ≤ length self.old.records.items + 1) }
        ensures size { OnOk result (self.new.records.size ≤ self.old.records.size + length octets.now) }
        ensures cells { OnOk result (self.new.records.cells ≡ self.old.records.cells) }
        ensures refused { IsErrOf result OpenRefusal.NotACard
            → (is_admitted row_limit (slot_with octets.now) ≡ false) ⊎ ((self.old.counter ≢ None) × (in_slot counter_in (slot_with octets.now) ≢ None)) }
        ensures refusal { IfErr result (λ refusal. refusal ≡ OpenRefusal.NotACard) }
    {
        if octets.is_empty() {
            return Ok(());
        }
        match SlotRecord::read(octets, slot, row_limit) {
            None => Err(OpenRefusal::NotACard),
            Some(SlotRecord::Counter(next)) => self.keep_counter(next),
            Some(SlotRecord::Other(entry)) => {
                self.records.push(&entry, octets, slot);
                Ok(())
            }
        }
    }

    // Keeps the counter's number, where it is the first.
    fn keep_counter(&mut self, next: u32) -> Result<(), OpenRefusal>
        ensures set { OnOk result ((self.old.counter ≡ None) × (self.new.counter ≡ Some next)) }
        ensures records { self.new.records ≡ self.old.records }
        ensures second { IsErrOf result OpenRefusal.NotACard → self.old.counter ≢ None }
        ensures refusal { IfErr result (λ refusal. refusal ≡ OpenRefusal.NotACard) }
    {
        if self.counter.is_some() {
            return Err(OpenRefusal::NotACard);
        }
        self.counter = Some(next);
        Ok(())
    }

    // The records in rising order of their stamps, where they are those of a valid database.
    #[inline(never)]
    fn tested(self, numbers: &mut Vec<u64, Heap>) -> Option<SortedRecords>
        requires room { length self.records.items ≤ vec_capacity numbers.old }
        ensures records { IfSome result (λ records. records.items ≡ in_order stamp_of self.records.items) }
        ensures passed { IfSome result (λ records. (next : ℕ) × (self.counter ≡ Some next) × PassTest next self.records.items) }
        ensures refused { result ≡ None → (next : ℕ) → self.counter ≡ Some next → PassTest next self.records.items → ⊥ }
    {
        let Gathered { counter, records } = self;
        let next = counter?;
        let sorted = SortedRecords::of(records)?;
        if !are_valid(next, &sorted, numbers) {
            return None;
        }
        Some(sorted)
    }
}
