// The records of a card while it is opened: their octets one behind another, and where each begins.
ghost use Rattle.std.specs.Prelude.{◌≡◌, ◌↔◌, ◌+◌, ◌*◌, ◌<◌, ◌≤◌, ◌==◌, [], ◌∷◌, ◌++◌, Some, IfOk, IsTrue, length, get_or};
ghost use Rattle.std.specs.List.{find};
ghost use Rattle.std.specs.List.Sorted.{IsPermutation};
ghost use Rattle.eeprom.specs.Slots.{AreApart, Rises};
ghost use Rattle.scql_base.specs.declared.records.TheConstants.RowRecord.{LONGEST};
ghost use Rattle.card.specs.KeptRecords.{stamp_of};
ghost use Rattle.card.specs.Opening.{record_in};
ghost use Rattle.card.specs.Pool.{IsPlaceIn, record_at};
ghost use Rattle.card.specs.declared.kept_record.KeptRecord as kept;

use crate::spelled_record::SpelledRecord;
use eeprom::Heap;
use std::alloc::AllocError;
use std::marker::Model;

/// How many octets of a record a cell has at most.
const OCTETS_A_CELL: usize = 30;

/// Where the octets of a record are among those of all.
#[derive(Clone, Copy)]
pub(crate) struct RecordPlace {
    stamp: u32,
    start: u32,
    length: u16,
    /// The slot of the record.
    slot: u16,
}

/// The records of a card while it is opened. All memory is taken when it is made.
#[derive(Drop)]
pub(crate) struct KeptRecords {
    octets: Vec<u8, Heap>,
    places: Vec<RecordPlace, Heap>,
}

impl Model for KeptRecords {
    ghost use Rattle.std.specs.Vec.{vec_capacity};
    ghost use Rattle.card.specs.Pool.{IsPool, Pool, pool_of};

    ghost Value = { Pool };

    ghost view = { λ r. pool_of r.octets.items r.places.items (vec_capacity r.places) };

    ghost invariant = { λ r. IsPool r.octets.items r.places.items (vec_capacity r.octets) (vec_capacity r.places) };
}

impl KeptRecords {
    /// Room for the records of a store of so many cells.
    pub(crate) fn for_cells(alloc: Heap, cells: u16) -> Result<KeptRecords, AllocError>
        ensures { IfOk result (λ records. records ≡ record { items = []; size = 0; cells = cells }) }
    {
        let cells = usize::from(cells);
        Ok(KeptRecords {
            octets: Vec::with_capacity(alloc, OCTETS_A_CELL * cells)?,
            places: Vec::with_capacity(alloc, cells)?,
        })
    }

    /// How many records there are.
    pub(crate) fn len(&self) -> usize
        ensures { result ≡ length self.now.items }
    {
        self.places.len()
    }

    /// Adds a record, which is that of the octets of a slot.
    pub(crate) fn push(&mut self, entry: &SpelledRecord<'_>, octets: &[u8], slot: u16)
        requires is { record_in slot octets.now ≡ Some entry.now }
        requires short { length octets.now ≤ LONGEST }
        requires room { length self.old.items < self.old.cells }
        requires fits { self.old.size + length octets.now ≤ 30 * self.old.cells }
        ensures { self.new ≡ record { items = self.old.items ++ entry.now ∷ []; size = self.old.size + length octets.now; cells = self.old.cells } }
    {
        let place = RecordPlace {
            stamp: entry.stamp(),
            start: self.octets.len() as u32,
            length: octets.len() as u16,
            slot,
        };
        let extended = self.octets.extend_from_slice(octets).is_ok();
        prove!(extended);
        self.places.push_reserved(place);
    }

    /// Puts the records in the order of their stamps.
    pub(crate) fn sort(&mut self)
        ensures permutation { IsPermutation self.old.items self.new.items }
        ensures sorted { AreApart stamp_of self.old.items → Rises stamp_of self.new.items }
        ensures len { length self.new.items ≡ length self.old.items }
        ensures rest { self.new ≡ record self.old { items = self.new.items } }
    {
        self.places.sort_unstable_by_key(|place| place.stamp);
    }

    /// Whether each stamp is below the next.
    pub(crate) fn do_stamps_rise(&self) -> bool
        ensures { IsTrue result ↔ Rises stamp_of self.now.items }
    {
        self.places
            .is_sorted_by(|earlier, later| earlier.stamp < later.stamp)
    }

    /// The record at an index.
    pub(crate) fn at(&self, index: usize) -> SpelledRecord<'_>
        requires { index < length self.now.items }
        ensures { result ≡ get_or self.now.items index result }
    {
        spelled_at(self.octets.as_slice(), &self.places[index])
    }

    /// The record of a stamp, where the stamps rise.
    pub(crate) fn find(&self, stamp: u32) -> Option<SpelledRecord<'_>>
        requires rises { Rises stamp_of self.now.items }
        ensures { result ≡ find (λ (r : kept.KeptRecord). stamp_of r == stamp) self.now.items }
    {
        match self
            .places
            .binary_search_by_key(&stamp, |place| place.stamp)
        {
            Ok(index) => Some(spelled_at(self.octets.as_slice(), &self.places[index])),
            Err(_) => None,
        }
    }
}

// The record in a place.
fn spelled_at<'a>(octets: &'a [u8], place: &RecordPlace) -> SpelledRecord<'a>
    requires { IsPlaceIn octets.now place.now }
    ensures { Some result ≡ record_at octets.now place.now }
{
    let start = place.start as usize;
    let end = start + usize::from(place.length);
    SpelledRecord {
        octets: &octets[start..end],
        stamp: place.stamp,
        slot: place.slot,
    }
}
