// Slots by the first cells of their chains: an empty one, and chains that others replace.
ghost use Rattle.std.specs.Prelude.{◌≡◌, ◌≤◌, ◌<◌, ℕ, List, true, if◌then◌else◌, length, is_some, slice_index, Some, None, IfSome, IfNone, All};
ghost use Rattle.eeprom.specs.StoreOf.{most_cells, no_cell};
ghost use Rattle.cell_store.specs.Marks.{StaysMarked, is_marked};
ghost use Rattle.record_store.specs.Kept.{AreEmptyBehind};
ghost use Rattle.record_store.specs.Slots.{AreUsedChains, AreReplaced};
ghost use Rattle.record_store.specs.Touched.{AreSlots, SameOutside};

use cell_store::CellStore;
use eeprom::{Heap, NO_CELL};

/// Frees the chains of these slots in whose place others are kept. In all other slots the chains are the same.
pub fn free_replaced(cells: &mut CellStore, slots: &[u16], replaced: &[u16], kept: &[u16])
    requires slots { AreSlots (length replaced.now) slots.now }
    requires count { length kept.now ≡ length replaced.now }
    requires others { SameOutside slots.now replaced.now kept.now }
    ensures freed { (chains : List (List ℕ)) → AreUsedChains cells.old replaced.now chains
        → (cell : ℕ) → is_marked cells.new.used cell ≡ true → AreReplaced replaced.now kept.now chains (length replaced.now) cell → ⊥ }
    ensures others { (chains : List (List ℕ)) → AreUsedChains cells.old replaced.now chains
        → (cell : ℕ) → is_marked cells.old.used cell ≡ true → ¬ (AreReplaced replaced.now kept.now chains (length replaced.now) cell) → is_marked cells.new.used cell ≡ true }
    ensures cells { cells.new.cells ≡ cells.old.cells }
    ensures links { cells.new.links ≡ cells.old.links }
    ensures fewer { StaysMarked cells.new.used cells.old.used }
    ensures count { length cells.new.used ≡ length cells.old.used }
{
    for slot in slots {
        let first = replaced[*slot as usize];
        if first != kept[*slot as usize] {
            cells.free_chain(first);
        }
    }
}

/// Copies the first cells of these slots. In all other slots they are the same.
pub fn copy_slots(slots: &[u16], from: &[u16], to: &mut Vec<u16, Heap>)
    requires slots { AreSlots (length from.now) slots.now }
    requires count { length to.old.items ≡ length from.now }
    requires others { SameOutside slots.now to.old.items from.now }
    ensures { to.new.items ≡ from.now }
{
    for slot in slots {
        to[*slot as usize] = from[*slot as usize];
    }
}

/// The slot that is named, or else one whose chain begins nowhere. It is searched from a slot to the last, and then from the first.
pub fn named_or_empty(slot: Option<u16>, firsts: &[u16], from: u16) -> Option<u16>
    requires few { length firsts.now ≤ most_cells }
    requires named { IfSome slot (λ slot. slot < length firsts.now) }
    ensures there { IfSome result (λ found. found < length firsts.now) }
    ensures named { IfSome slot (λ slot. result ≡ Some slot) }
    ensures empty { slot ≡ None → IfSome result (λ found. slice_index firsts.now found ≡ no_cell) }
    ensures none { IfNone result ((slot ≡ None) × All (λ first. ¬ (first ≡ no_cell)) firsts.now) }
{
    if let Some(_) = slot {
        return slot;
    }
    let found = empty_from(firsts, from);
    if let Some(_) = found {
        return found;
    }
    empty_from(firsts, 0)
}

/// From where an empty slot is searched next: from where one was found, and as before where a slot was named.
pub fn search_from(named: Option<u16>, found: u16, from: u16) -> u16
    ensures { result ≡ (if is_some named then from else found) }
{
    match named {
        Some(_) => from,
        None => found,
    }
}

/// Behind so many slots no chain begins.
pub fn slots_in_use(firsts: &[u16]) -> u16
    requires few { length firsts.now ≤ most_cells }
    ensures most { result ≤ length firsts.now }
    ensures empty { AreEmptyBehind result firsts.now }
{
    let mut count = 0;
    for slot in 0..firsts.len() {
        if firsts[slot] != NO_CELL {
            count = slot as u16 + 1;
        }
    }
    count
}

/// The first slot from one on whose chain begins nowhere.
fn empty_from(firsts: &[u16], from: u16) -> Option<u16>
    requires few { length firsts.now ≤ most_cells }
    ensures there { IfSome result (λ slot. slot < length firsts.now) }
    ensures empty { IfSome result (λ slot. slice_index firsts.now slot ≡ no_cell) }
    ensures none { IfNone result (from ≡ 0 → All (λ first. ¬ (first ≡ no_cell)) firsts.now) }
{
    for slot in from..firsts.len() as u16 {
        if firsts[slot as usize] == NO_CELL {
            return Some(slot);
        }
    }
    None
}
