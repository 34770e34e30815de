// The entries of a commit: the slots whose chains it changes.
ghost use Rattle.std.specs.Prelude.{◌≡◌, ◌≤◌, true, length};
ghost use Rattle.std.specs.List.{list_all};
ghost use Rattle.std.specs.List.Sorted.{IsNonDecreasing};
ghost use Rattle.std.specs.Vec.{vec_capacity};
ghost use Rattle.eeprom.specs.StoreOf.{is_entry, with_entries};
ghost use Rattle.record_store.specs.Slots.{AreFirsts, changed};
ghost use Rattle.record_store.specs.Touched.{AreInOrder, AreSlots, SameOutside};

use eeprom::Heap;
use journal::Entry;

/// Takes an entry for each of these slots in which another chain begins now, in their order. In all other slots the chains are the same.
pub fn take_entries(
    entries: &mut Vec<Entry, Heap>,
    slots: &[u16],
    committed: &[u16],
    working: &[u16],
)
    requires slots { AreSlots (length committed.now) slots.now }
    requires count { length working.now ≡ length committed.now }
    requires others { SameOutside slots.now working.now committed.now }
    requires rising { IsNonDecreasing slots.now }
    requires room { length committed.now ≤ vec_capacity entries.old }
    ensures entries { with_entries entries.new.items committed.now ≡ working.now }
    ensures range { AreFirsts (length working.now) working.now → list_all (is_entry (length working.now)) entries.new.items ≡ true }
    ensures rising { AreInOrder entries.new.items }
    ensures count { length entries.new.items ≡ changed committed.now working.now }
    ensures room { vec_capacity entries.new ≡ vec_capacity entries.old }
{
    entries.clear();
    for slot in slots {
        let first = working[*slot as usize];
        if first != committed[*slot as usize] {
            entries.push_reserved(Entry { slot: *slot, first });
        }
    }
}
