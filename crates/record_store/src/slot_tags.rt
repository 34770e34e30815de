// For each slot the tag and the stamp of its record, on both sides.
ghost use Rattle.std.specs.Prelude.{◌≡◌, ◌<◌, length, IfOk};
ghost use Rattle.record_store.specs.Tags.{DifferOnlyIn, both_sides, no_tags, with_tags};
ghost use Rattle.record_store.specs.Touched.{AreSlots};

use crate::tags::{stamp_of, tag_of};
use eeprom::Heap;
use std::alloc::AllocError;
use std::marker::Model;

/// The tags and the stamps of the records of all slots on one side.
#[derive(Drop)]
pub struct SideTags {
    names: Vec<u16, Heap>,
    stamps: Vec<u32, Heap>,
}

impl Model for SideTags {
    ghost use Rattle.record_store.specs.Tags as specs;

    ghost Value = { specs.SideTags };

    ghost view = { λ tags. record { names = tags.names.items; stamps = tags.stamps.items } };
}

impl SideTags {
    /// Of so many slots without records. All memory that is needed is taken here.
    fn with_room(alloc: Heap, size: u16) -> Result<SideTags, AllocError>
        ensures { IfOk result (λ tags. tags ≡ no_tags size) }
    {
        Ok(SideTags {
            names: vec![in alloc; 0u16; size as usize]?,
            stamps: vec![in alloc; 0u32; size as usize]?,
        })
    }

    pub fn names(&self) -> &[u16]
        ensures { result.now ≡ self.now.names }
    {
        self.names.as_slice()
    }

    pub fn stamps(&self) -> &[u32]
        ensures { result.now ≡ self.now.stamps }
    {
        self.stamps.as_slice()
    }

    /// Takes in the record of a slot.
    fn put(&mut self, slot: u16, octets: &[u8])
        requires names { slot < length self.old.names }
        requires stamps { slot < length self.old.stamps }
        ensures { self.new ≡ with_tags self.old slot octets.now }
    {
        self.names[slot as usize] = tag_of(octets);
        self.stamps[slot as usize] = stamp_of(octets);
    }

    /// Becomes those of the other side, which differ in these slots alone.
    fn copy(&mut self, slots: &[u16], other: &SideTags)
        requires slots { AreSlots (length other.now.names) slots.now }
        requires differ { DifferOnlyIn slots.now self.old other.now }
        ensures { self.new ≡ other.now }
    {
        for slot in slots {
            self.names[*slot as usize] = other.names[*slot as usize];
            self.stamps[*slot as usize] = other.stamps[*slot as usize];
        }
    }
}

/// The tags of the records of all slots, as they were committed and as they are in a transaction.
#[derive(Drop)]
pub struct SlotTags {
    committed: SideTags,
    working: SideTags,
}

impl Model for SlotTags {
    ghost use Rattle.record_store.specs.Tags.{Tags};

    ghost Value = { Tags };

    ghost view = { λ tags. record { committed = tags.committed; working = tags.working } };
}

impl SlotTags {
    /// Of so many slots without records. All memory that is needed is taken here.
    pub fn with_room(alloc: Heap, size: u16) -> Result<SlotTags, AllocError>
        ensures { IfOk result (λ tags. tags ≡ both_sides (no_tags size)) }
    {
        Ok(SlotTags {
            committed: SideTags::with_room(alloc, size)?,
            working: SideTags::with_room(alloc, size)?,
        })
    }

    pub fn committed(&self) -> &SideTags
        ensures { result.now ≡ self.now.committed }
    {
        &self.committed
    }

    pub fn working(&self) -> &SideTags
        ensures { result.now ≡ self.now.working }
    {
        &self.working
    }

    /// Takes in the record that was found in a slot, which is that of both sides.
    pub fn found(&mut self, slot: u16, octets: &[u8])
        requires names { slot < length self.old.committed.names }
        requires stamps { slot < length self.old.committed.stamps }
        requires working_names { slot < length self.old.working.names }
        requires working_stamps { slot < length self.old.working.stamps }
        ensures committed { self.new.committed ≡ with_tags self.old.committed slot octets.now }
        ensures working { self.new.working ≡ with_tags self.old.working slot octets.now }
    {
        self.committed.put(slot, octets);
        self.working.put(slot, octets);
    }

    /// Takes in the record that is put into a slot of the working side.
    pub fn put(&mut self, slot: u16, octets: &[u8])
        requires names { slot < length self.old.working.names }
        requires stamps { slot < length self.old.working.stamps }
        ensures { self.new ≡ record self.old { working = with_tags self.old.working slot octets.now } }
    {
        self.working.put(slot, octets);
    }

    /// Takes in that what was put into these slots is committed.
    pub fn commit(&mut self, slots: &[u16])
        requires slots { AreSlots (length self.old.working.names) slots.now }
        requires differ { DifferOnlyIn slots.now self.old.committed self.old.working }
        ensures { self.new ≡ both_sides self.old.working }
    {
        self.committed.copy(slots, &self.working);
    }

    /// Takes in that these slots are as they were committed.
    pub fn rollback(&mut self, slots: &[u16])
        requires slots { AreSlots (length self.old.committed.names) slots.now }
        requires differ { DifferOnlyIn slots.now self.old.working self.old.committed }
        ensures { self.new ≡ both_sides self.old.committed }
    {
        self.working.copy(slots, &self.committed);
    }
}
