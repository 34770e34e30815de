// The index: where the rows of both sides of a store stand.
ghost use Rattle.std.specs.Prelude.{◌≡◌, ◌<◌, [], false, true, IfOk, IfSome, IsTrue, map, option_map, slice_get};
ghost use Rattle.std.specs.List.{AllByRecursion, filter, find};
ghost use Rattle.eeprom.specs.Chip.{Chip};
ghost use Rattle.eeprom.specs.StoreOf.{Slots};
ghost use Rattle.record_store.specs.Held.{IsOver};
ghost use Rattle.record_store.specs.declared.side.Side.TheVariants.{Committed, Working};
ghost use Rattle.record_table.specs.Listed.{slots_of};
ghost use Rattle.row_index.specs.Index.{ArePlacesIn, ChangesWorking, HasRows, Index, IsOneMoreRow, LeadsTo, WhereIndexed, side_rows};
ghost use Rattle.row_index.specs.Places.{is_in_table, is_later_in, is_row_of, place_slot, row_places};
ghost use Rattle.row_index.specs.SideRows.{no_rows, without_slot, without_table};

use crate::RowPlace;
use crate::done::Done;
use crate::side_rows::SideRows;
use eeprom::Heap;
use record_store::{Side, Store};
use std::alloc::AllocError;
use std::marker::Model;

/// Where the rows of both sides of a store stand. It keeps the slots of the rows and their tables; their stamps are those that the store
/// keeps. Only making one takes memory.
#[derive(Drop)]
pub struct RowIndex {
    committed: SideRows,
    working: SideRows,
    begun: bool,
    done: Done,
}

impl Model for RowIndex {
    ghost use Rattle.row_index.specs.Index.{Index, IsIndex};

    ghost Value = { Index };

    ghost view = { λ index. record { cells = index.committed.cells; begun = index.begun; committed = index.committed.rows; working = index.working.rows } };

    ghost invariant = { λ index. IsIndex index.done index.begun index.committed index.working };
}

impl RowIndex {
    /// An index of no rows, with room for those of a store of so many cells: for each cell on each side 4 octets for the table of the row of
    /// a slot, and 2 for a slot in order. That is 24,576 octets for 2,048 cells.
    pub fn with_room(alloc: Heap, cells: u16) -> Result<RowIndex, AllocError>
        ensures none { IfOk result (λ index. index ≡ record { cells = cells; begun = false; committed = no_rows cells; working = no_rows cells }) }
    {
        Ok(RowIndex {
            committed: SideRows::with_room(alloc, cells)?,
            working: SideRows::with_room(alloc, cells)?,
            begun: false,
            done: Done::Nothing,
        })
    }

    /// Takes in the rows of a store, which stand in these places, in rising order of their stamps. Takes no memory.
    pub fn fill(&mut self, store: &Store, places: &[RowPlace])
        requires idle { self.old.begun ≡ false }
        requires none { self.old.committed.slots ≡ [] }
        ensures cells { self.new.cells ≡ self.old.cells }
        ensures idle { self.new.begun ≡ false }
        ensures both { self.new.working ≡ self.new.committed }
        ensures filled { (chip : Chip) → IsOver store.now chip → IfSome (slots_of store.now Committed chip) (λ slots. ArePlacesIn self.old.cells places.now slots → HasRows self.new.cells self.new.committed slots) }
    {
        self.committed.fill(store.stamps(Side::Committed), places);
        self.working.copy(&self.committed);
    }

    /// The slot of the row of a table and a stamp. Where it stands at the place `near` in order, it isn't searched for; from any other
    /// place the answer is the same.
    pub fn find(
        &self,
        store: &Store,
        side: Side,
        table: u32,
        stamp: u32,
        near: usize,
    ) -> Option<u16>
        ensures value { WhereIndexed self.now store.now side (λ slots. result ≡ option_map place_slot (find (is_row_of table stamp) (row_places slots))) }
        ensures there { IfSome result (λ slot. slot < self.now.cells) }
    {
        self.side(side).find(store.stamps(side), table, stamp, near)
    }

    /// The stamp and the slot of the row of a table that has the least greater stamp. Where the row of the stamp stands at the place `near`
    /// in order, it isn't searched for; from any other place the answer is the same. The place of the row that is told is put there, so
    /// that a scan that keeps it goes on without a search.
    pub fn next_after(
        &self,
        store: &Store,
        side: Side,
        table: u32,
        stamp: u32,
        near: &mut usize,
    ) -> Option<(u32, u16)>
        ensures value { WhereIndexed self.now store.now side (λ slots. result ≡ option_map (λ place. (place.stamp, place.slot)) (find (is_later_in table stamp) (row_places slots))) }
        ensures near { IfSome result (λ next. slice_get (side_rows self.now side).slots near.new ≡ Some next.1) }
        ensures there { IfSome result (λ next. next.1 < self.now.cells) }
    {
        let stamps = store.stamps(side);
        let place = self.side(side).next_after(stamps, table, stamp, near)?;
        Some((place.stamp, place.slot))
    }

    /// The slots of the rows of a table, in rising order of their stamps.
    pub fn rows_of(&self, store: &Store, side: Side, table: u32) -> &[u16]
        ensures rows { WhereIndexed self.now store.now side (λ slots. result.now ≡ map place_slot (filter (is_in_table table) (row_places slots))) }
        ensures there { AllByRecursion (λ slot. slot < self.now.cells) result.now }
    {
        self.side(side).of_table(store.stamps(side), table)
    }

    /// Begins a transaction.
    pub fn begin(&mut self)
        requires idle { self.old.begun ≡ false }
        ensures begun { self.new ≡ record { cells = self.old.cells; begun = true; committed = self.old.committed; working = self.old.committed } }
    {
        self.begun = true;
    }

    /// Takes in the row that a slot of the store's working side has, which is one of this table.
    pub fn added(&mut self, store: &Store, table: u32, slot: u16)
        requires begun { IsTrue self.old.begun }
        ensures changes { ChangesWorking self.old self.new }
        ensures added { (chip : Chip) (before : Slots) → IsOver store.now chip → HasRows self.old.cells self.old.working before
            → IfSome (slots_of store.now Working chip) (λ after. IsOneMoreRow table slot before after → HasRows self.new.cells self.new.working after) }
    {
        let stamps = store.stamps(Side::Working);
        if let Some(at) = self.working.put(stamps, table, slot) {
            self.done = self.done.and(Done::Added { at, slot });
        }
    }

    /// Lets go the row that a slot of the store's working side has. A slot without one leaves the index as it was.
    pub fn removed(&mut self, store: &Store, slot: u16)
        requires begun { IsTrue self.old.begun }
        ensures changes { ChangesWorking self.old self.new }
        ensures removed { WhereIndexed self.old store.now Working (λ _. self.new.working ≡ without_slot slot self.old.working) }
    {
        let stamps = store.stamps(Side::Working);
        if let Some(at) = self.working.take_out(stamps, slot) {
            self.done = self.done.and(Done::Removed { at, slot });
        }
    }

    /// Lets go all rows of a table on the working side.
    pub fn table_removed(&mut self, table: u32)
        requires begun { IsTrue self.old.begun }
        ensures removed { self.new ≡ record { cells = self.old.cells; begun = true; committed = self.old.committed; working = without_table table self.old.working } }
    {
        self.working.take_out_table(table);
        self.done = Done::Much;
    }

    /// Ends a transaction: its rows are the committed ones.
    pub fn commit(&mut self)
        requires begun { IsTrue self.old.begun }
        ensures committed { self.new ≡ record { cells = self.old.cells; begun = false; committed = self.old.working; working = self.old.working } }
    {
        follow(&mut self.committed, &self.working, self.done);
        self.done = Done::Nothing;
        self.begun = false;
    }

    /// Ends a transaction: the rows are what they were before it.
    pub fn rollback(&mut self)
        requires begun { IsTrue self.old.begun }
        ensures rolled_back { self.new ≡ record { cells = self.old.cells; begun = false; committed = self.old.committed; working = self.old.committed } }
    {
        follow(&mut self.working, &self.committed, self.done.undoing());
        self.done = Done::Nothing;
        self.begun = false;
    }

    // The rows of a side.
    fn side(&self, side: Side) -> &SideRows
        ensures rows { result.now ≡ record { cells = self.now.cells; rows = side_rows self.now side } }
    {
        match side {
            Side::Committed => &self.committed,
            Side::Working => &self.working,
        }
    }
}

// Does to the rows of a side what makes them those of the other side.
fn follow(rows: &mut SideRows, others: &SideRows, done: Done)
    requires cells { others.now.cells ≡ rows.old.cells }
    requires leads { LeadsTo done rows.old.rows others.now.rows }
    ensures same { rows.new ≡ others.now }
{
    match done {
        Done::Nothing => {}
        Done::Added { at, slot } => rows.follow_added(others, at, slot),
        Done::Removed { at, slot } => rows.follow_removed(others, at, slot),
        Done::Much => rows.copy(others),
    }
}
