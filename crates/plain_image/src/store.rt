// The store of an image as plain lists.
ghost use Rattle.std.specs.Prelude.{◌≡◌, IfOk};
ghost use Rattle.eeprom.specs.StoreOf as image;

use crate::cells::Cells;
use crate::header::{begins_store, cells_of, row_limit};
use crate::journal::directory;
use crate::slot::SlotOctets;
use crate::slots::slots_at;
use eeprom::Heap;
use std::alloc::AllocError;
use std::marker::Model;

/// A store: how many octets a row may have, and the record of each slot.
#[derive(Drop)]
pub struct PlainStore {
    pub(crate) row_limit: u16,
    pub(crate) slots: Vec<Option<SlotOctets>, Heap>,
}

impl Model for PlainStore {
    ghost use Rattle.eeprom.specs.StoreOf.{Stored};

    ghost Value = { Stored };

    ghost view = { λ s. record { row_limit = s.row_limit; slots = s.slots.items } };
}

impl PlainStore {
    /// The store of an image, where it has one.
    pub fn read(alloc: Heap, octets: &[u8]) -> Result<Option<PlainStore>, AllocError>
        ensures { IfOk result (λ found. found ≡ image.store_of octets.now) }
    {
        if !begins_store(octets) {
            return Ok(None);
        }
        let cells = Cells::new(cells_of(octets));
        let Some(firsts) = directory(alloc, octets, cells)? else {
            return Ok(None);
        };
        let Some(slots) = slots_at(alloc, octets, cells, &firsts)? else {
            return Ok(None);
        };
        Ok(Some(PlainStore {
            row_limit: row_limit(octets),
            slots,
        }))
    }
}
