// Runs of slots with common records, which all begin with one octet. A store has many of them and few others, so a search for these passes over such runs.
ghost use Rattle.std.specs.Prelude.{◌≡◌, ◌<◌, ◌≤◌, ◌⊎◌, ℕ, length, slice_index, IfOk};
ghost use Rattle.eeprom.specs.StoreOf.{most_cells, no_cell};
ghost use Rattle.record_store.specs.CommonRuns.{AreEnds, EndsRun, Passes, PassesCommon, common_octet};

use eeprom::{Heap, NO_CELL};
use std::alloc::AllocError;
use std::marker::Model;

/// The first octet of a common record.
const COMMON: u8 = 6;

/// For each slot of a store where the run of slots with common records, or with none, ends that begins there: the next slot from it on that may
/// have another record.
#[derive(Drop)]
pub struct CommonRuns {
    ends: Vec<u16, Heap>,
}

impl Model for CommonRuns {
    ghost use Rattle.std.specs.Prelude.{List, ℕ};
    ghost use Rattle.record_store.specs.CommonRuns.{AreEnds};

    ghost Value = { List ℕ };

    ghost view = { λ runs. runs.ends.items };

    ghost invariant = { λ runs. AreEnds runs.ends.items };
}

impl CommonRuns {
    /// One run of so many slots. All memory that is needed is taken here.
    pub fn with_room(alloc: Heap, size: u16) -> Result<CommonRuns, AllocError>
        ensures { IfOk result (λ runs. length runs ≡ size) }
    {
        Ok(CommonRuns {
            ends: vec![in alloc; size; size as usize]?,
        })
    }

    /// Where the run from this slot on ends: a search passes over the slots before.
    pub fn end(&self, slot: u16) -> u16
        ensures { EndsRun self.now slot result }
    {
        match self.ends.get(usize::from(slot)) {
            Some(end) => *end,
            None => slot,
        }
    }

    /// Takes in that a slot has a record with this first octet.
    pub fn take_in(&mut self, slot: u16, octet: u8)
        requires inside { slot < length self.old }
        requires few { length self.old ≤ most_cells }
        ensures size { length self.new ≡ length self.old }
        ensures fewer { (from passed : ℕ) → Passes self.new from passed → Passes self.old from passed }
        ensures common { (from : ℕ) → Passes self.new from slot → octet ≡ common_octet }
        ensures same { octet ≡ common_octet → self.new ≡ self.old }
    {
        if octet != COMMON {
            stop_at(&mut self.ends, slot);
        }
    }
}

/// No search passes over this slot any more.
fn stop_at(ends: &mut Vec<u16, Heap>, slot: u16)
    requires inside { slot < length ends.old.items }
    requires few { length ends.old.items ≤ most_cells }
    requires ends { AreEnds ends.old.items }
    ensures size { length ends.new.items ≡ length ends.old.items }
    ensures ends { AreEnds ends.new.items }
    ensures fewer { (from passed : ℕ) → Passes ends.new.items from passed → Passes ends.old.items from passed }
    ensures stops { (from : ℕ) → Passes ends.new.items from slot → ⊥ }
{
    let mut from = slot + 1;
    while from > 0 && ends[from as usize - 1] > slot {
        from -= 1;
        ends[from as usize] = slot;
    }
}

/// Takes in the records of all slots, which begin at these cells, by the first octets that are kept for them.
pub fn take_in_all(runs: &mut CommonRuns, firsts: &[u16], first_octets: &[u8])
    requires size { length runs.old ≡ length firsts.now }
    requires few { length firsts.now ≤ most_cells }
    requires kept { (slot : ℕ) → slot < length firsts.now → (slice_index firsts.now slot ≡ no_cell) ⊎ (slice_index firsts.now slot < length first_octets.now) }
    ensures size { length runs.new ≡ length runs.old }
    ensures common { PassesCommon first_octets.now runs.new firsts.now }
{
    for slot in 0..firsts.len() as u16 {
        let first = firsts[slot as usize];
        if first != NO_CELL {
            runs.take_in(slot, first_octets[first as usize]);
        }
    }
}
