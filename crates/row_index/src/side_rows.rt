// The rows of one side: their slots in order, and of each slot the table of its row. Both keep their memory.
ghost use Rattle.std.specs.Prelude.{◌≡◌, ◌<◌, ◌==◌, [], Some, None, IfOk, IfSome, length, map, count_by, is_some, option_map, slice_get, slice_index, true};
ghost use Rattle.std.specs.List.{AllByRecursion, filter, find};
ghost use Rattle.eeprom.specs.Slots.{put_in_order};
ghost use Rattle.eeprom.specs.StoreOf.{Slots};
ghost use Rattle.row_index.specs.Index.{ArePlacesIn, AreStamps, HasRows, IsOneMore};
ghost use Rattle.row_index.specs.Ordered.{Ordered};
ghost use Rattle.row_index.specs.Places.{is_in_table, is_later_in, is_row_of, place_key, place_slot};
ghost use Rattle.row_index.specs.SideRows.{AreInOrder, no_rows, places_of, without_slot, without_table};

use crate::RowPlace;
use crate::columns::Columns;
use crate::order::{
    count_before, count_below, count_below_near, count_up_to, count_up_to_near, stands_at,
};
use crate::place::key_in_table;
use eeprom::Heap;
use std::alloc::AllocError;
use std::marker::Model;

#[derive(Drop)]
pub(crate) struct SideRows {
    cells: u16,
    /// Of each slot of the store the table of the row that it has, or had.
    tables: Vec<u32, Heap>,
    /// In rising order of the keys of their rows.
    slots: Vec<u16, Heap>,
    /// Where the next slot may go in order, or where it may stand that goes next.
    near: usize,
}

impl Model for SideRows {
    ghost use Rattle.std.specs.Vec.{vec_capacity};
    ghost use Rattle.row_index.specs.Ordered.{IsOrdered, Ordered};

    ghost Value = { Ordered };

    ghost view = { λ side. record { cells = side.cells; rows = record { tables = side.tables.items; slots = side.slots.items } } };

    ghost invariant = { λ side. IsOrdered side.cells side.tables.items side.slots.items (vec_capacity side.slots) };
}

impl SideRows {
    // None yet, with room for as many as there are cells.
    pub(crate) fn with_room(alloc: Heap, cells: u16) -> Result<SideRows, AllocError>
        ensures none { IfOk result (λ side. side ≡ record { cells = cells; rows = no_rows cells }) }
    {
        Ok(SideRows {
            cells,
            tables: vec![in alloc; 0u32; usize::from(cells)]?,
            slots: Vec::with_capacity(alloc, usize::from(cells))?,
            near: 0,
        })
    }

    // The slot of the row of a table and a stamp. Where it stands at the place `near`, it isn't searched for.
    pub(crate) fn find(&self, stamps: &[u32], table: u32, stamp: u32, near: usize) -> Option<u16>
        ensures value { AreInOrder (places_of stamps.now self.now.rows) → result ≡ option_map place_slot (find (is_row_of table stamp) (places_of stamps.now self.now.rows)) }
        ensures there { IfSome result (λ slot. slot < self.now.cells) }
    {
        let slots = self.slots.as_slice();
        let columns = self.columns(stamps);
        let at = count_below_near(slots, &columns, key_in_table(table, stamp), near);
        let place = columns.place_among(slots, at)?;
        if place.table == table && place.stamp == stamp {
            Some(place.slot)
        } else {
            None
        }
    }

    // The place of the row of a table that has the least greater stamp. Where the one of the stamp stands at the place `near`, it isn't
    // searched for. The place in order of the one that is told is put there.
    pub(crate) fn next_after(
        &self,
        stamps: &[u32],
        table: u32,
        stamp: u32,
        near: &mut usize,
    ) -> Option<RowPlace>
        ensures value { AreInOrder (places_of stamps.now self.now.rows) → result ≡ find (is_later_in table stamp) (places_of stamps.now self.now.rows) }
        ensures near { IfSome result (λ place. slice_get self.now.rows.slots near.new ≡ Some place.slot) }
        ensures there { IfSome result (λ place. place.slot < self.now.cells) }
    {
        let slots = self.slots.as_slice();
        let columns = self.columns(stamps);
        *near = count_up_to_near(slots, &columns, key_in_table(table, stamp), *near);
        let place = columns.place_among(slots, *near)?;
        if place.table == table {
            Some(place)
        } else {
            None
        }
    }

    // The slots of the rows of a table.
    pub(crate) fn of_table(&self, stamps: &[u32], table: u32) -> &[u16]
        ensures rows { AreInOrder (places_of stamps.now self.now.rows) → result.now ≡ map place_slot (filter (is_in_table table) (places_of stamps.now self.now.rows)) }
        ensures there { AllByRecursion (λ slot. slot < self.now.cells) result.now }
    {
        let slots = self.slots.as_slice();
        let columns = self.columns(stamps);
        let from = count_below(slots, &columns, key_in_table(table, 0));
        let end = count_up_to(slots, &columns, key_in_table(table, u32::MAX));
        match slots.get(from..end) {
            Some(rows) => rows,
            None => &[],
        }
    }

    // Puts the rows that stand in these places in order. None is there yet.
    pub(crate) fn fill(&mut self, stamps: &[u32], places: &[RowPlace])
        requires none { self.old.rows.slots ≡ [] }
        ensures cells { self.new.cells ≡ self.old.cells }
        ensures filled { (slots : Slots) → ArePlacesIn self.old.cells places.now slots → AreStamps stamps.now slots → HasRows self.old.cells self.new.rows slots }
    {
        for place in places {
            let _at = self.put(stamps, place.table, place.slot);
        }
    }

    // Puts the row of a slot where it stands in order, and answers where. A slot that isn't one of the store isn't put, and none where there is no room.
    pub(crate) fn put(&mut self, stamps: &[u32], table: u32, slot: u16) -> Option<usize>
        ensures one_more { IfSome result (λ at. IsOneMore at slot self.old.rows self.new.rows) }
        ensures cells { self.new.cells ≡ self.old.cells }
        ensures kept { result ≡ None → self.new ≡ self.old }
        ensures there { slot < self.old.cells → length self.old.rows.slots < self.old.cells → is_some result ≡ true }
        ensures placed { IfSome result (λ _. AreInOrder (places_of stamps.now self.old.rows) → count_by (λ other. other == slot) self.old.rows.slots ≡ 0
            → places_of stamps.now self.new.rows ≡ put_in_order place_key (record { stamp = slice_index stamps.now slot; table = table; slot = slot }) (places_of stamps.now self.old.rows)) }
        ensures fits { IfSome result (λ _. slice_index stamps.now slot < 4294967296) }
    {
        if slot >= self.cells || self.slots.len() >= usize::from(self.cells) {
            return None;
        }
        self.tables[usize::from(slot)] = table;
        let columns = Columns {
            stamps,
            tables: self.tables.as_slice(),
        };
        let key = columns.place(slot).key();
        let at = count_up_to_near(self.slots.as_slice(), &columns, key, self.near);
        // There is room, so this doesn't fail.
        let _done = self.slots.insert(at, slot);
        self.near = at + 1;
        Some(at)
    }

    // Takes the row of a slot out, and answers where it stood in order.
    pub(crate) fn take_out(&mut self, stamps: &[u32], slot: u16) -> Option<usize>
        ensures one_less { IfSome result (λ at. IsOneMore at slot self.new.rows self.old.rows) }
        ensures cells { self.new.cells ≡ self.old.cells }
        ensures kept { result ≡ None → self.new ≡ self.old }
        ensures taken { AreInOrder (places_of stamps.now self.old.rows) → self.new.rows ≡ without_slot slot self.old.rows }
    {
        let columns = self.columns(stamps);
        let at = count_before(self.slots.as_slice(), &columns, slot, self.near);
        if !stands_at(self.slots.as_slice(), at, slot) {
            return None;
        }
        self.slots.remove(at);
        self.near = at;
        Some(at)
    }

    // Takes out the rows of a table.
    pub(crate) fn take_out_table(&mut self, table: u32)
        ensures { self.new ≡ record { cells = self.old.cells; rows = without_table table self.old.rows } }
    {
        let tables = self.tables.as_slice();
        self.slots.retain(|slot| tables.get(usize::from(*slot)).copied().unwrap_or(0) != table);
    }

    // Does what puts one more row there, which stands so on the other side.
    pub(crate) fn follow_added(&mut self, other: &SideRows, at: usize, slot: u16)
        requires cells { other.now.cells ≡ self.old.cells }
        requires one_more { IsOneMore at slot self.old.rows other.now.rows }
        ensures same { self.new ≡ other.now }
    {
        self.tables[usize::from(slot)] = other.tables[usize::from(slot)];
        // There is room, so this doesn't fail.
        let _done = self.slots.insert(at, slot);
    }

    // Does what takes a row out, which isn't there on the other side.
    pub(crate) fn follow_removed(&mut self, other: &SideRows, at: usize, slot: u16)
        requires cells { other.now.cells ≡ self.old.cells }
        requires one_less { IsOneMore at slot other.now.rows self.old.rows }
        ensures same { self.new ≡ other.now }
    {
        self.slots.remove(at);
        self.tables[usize::from(slot)] = other.tables[usize::from(slot)];
    }

    // Has the same rows as the other side.
    pub(crate) fn copy(&mut self, other: &SideRows)
        requires cells { other.now.cells ≡ self.old.cells }
        ensures same { self.new ≡ other.now }
    {
        self.tables.copy_from_slice(other.tables.as_slice());
        self.slots.clear();
        // There is room, so this doesn't fail.
        let _done = self.slots.extend_from_slice(other.slots.as_slice());
    }

    // What is known of each slot, with these stamps.
    fn columns<'a>(&'a self, stamps: &'a [u32]) -> Columns<'a>
        ensures stamps { result.stamps.now ≡ stamps.now }
        ensures tables { result.tables.now ≡ self.now.rows.tables }
    {
        Columns {
            stamps,
            tables: self.tables.as_slice(),
        }
    }
}
