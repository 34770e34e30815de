// The slots that a transaction touched: each once, without a look at all slots of the store.
ghost use Rattle.std.specs.Prelude.{◌≡◌, ◌≤◌, ◌<◌, ℕ, false, length, IfOk};
ghost use Rattle.eeprom.specs.StoreOf.{most_cells};
ghost use Rattle.cell_store.specs.Chains.{is_among};
ghost use Rattle.cell_store.specs.Marks.{is_marked};
ghost use Rattle.record_store.specs.Touched.{Clears, Sorts, Touches, none_touched, AreSlots};

use eeprom::Heap;
use std::alloc::AllocError;
use std::marker::Model;

/// Slots of a store, each once.
#[derive(Drop)]
pub struct Touched {
    slots: Vec<u16, Heap>,
    /// Of each slot of the store whether it is one of them.
    marks: Vec<bool, Heap>,
}

impl Model for Touched {
    ghost use Rattle.std.specs.Prelude.{length};
    ghost use Rattle.std.specs.Vec.{vec_capacity};
    ghost use Rattle.record_store.specs.Touched.{TouchedSlots, AreMarkedOnce};

    ghost Value = { TouchedSlots };

    ghost view = { λ touched. record { slots = touched.slots.items; size = length touched.marks.items } };

    ghost invariant = { λ touched. AreMarkedOnce touched.slots.items touched.marks.items (vec_capacity touched.slots) };
}

impl Touched {
    /// None of so many slots. All memory that is needed is taken here.
    pub fn with_room(alloc: Heap, size: u16) -> Result<Touched, AllocError>
        requires few { size ≤ most_cells }
        ensures { IfOk result (λ touched. touched ≡ none_touched size) }
    {
        Ok(Touched {
            slots: Vec::with_capacity(alloc, size as usize)?,
            marks: vec![in alloc; false; size as usize]?,
        })
    }

    pub fn slots(&self) -> &[u16]
        ensures slots { result.now ≡ self.now.slots }
        ensures are { AreSlots self.now.size self.now.slots }
    {
        self.slots.as_slice()
    }

    /// Touches a slot.
    pub fn touch(&mut self, slot: u16)
        requires inside { slot < self.old.size }
        ensures { Touches slot self.old self.new }
    {
        let marked = self.marks[slot as usize];
        if marked {
            return;
        }
        self.marks[slot as usize] = true;
        self.slots.push_reserved(slot);
    }

    /// Puts the slots into rising order.
    pub fn sort(&mut self)
        ensures { Sorts self.old self.new }
    {
        self.slots.sort_unstable();
    }

    /// Forgets all slots.
    pub fn clear(&mut self)
        ensures { Clears self.old self.new }
    {
        unmark(self.slots.as_slice(), &mut self.marks);
        self.slots.clear();
    }
}

/// Marks these slots no more, which are all that are marked.
fn unmark(slots: &[u16], marks: &mut Vec<bool, Heap>)
    requires marked { (slot : ℕ) → is_marked marks.old.items slot ≡ is_among slot slots.now }
    ensures none { (slot : ℕ) → is_marked marks.new.items slot ≡ false }
    ensures count { length marks.new.items ≡ length marks.old.items }
{
    for slot in slots {
        marks[*slot as usize] = false;
    }
}
