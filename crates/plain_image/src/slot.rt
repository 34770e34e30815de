// The record in a slot of an image.
ghost use Rattle.std.specs.Prelude.{◌≡◌, IfOk};
ghost use Rattle.std.specs.List.{flat_map};
ghost use Rattle.eeprom.specs.StoreOf as image;

use crate::cells::Cells;
use crate::octets::{number_at, part};
use eeprom::{Heap, PIECE_SIZE, cell_place};
use std::alloc::AllocError;
use std::marker::Model;

/// The octets of a record.
#[derive(Drop)]
pub(crate) struct SlotOctets {
    octets: Vec<u8, Heap>,
}

impl Model for SlotOctets {
    ghost use Rattle.std.specs.Prelude.{ℕ, List};

    ghost Value = { List ℕ };

    ghost view = { λ s. s.octets.items };
}

impl SlotOctets {
    /// The octets of the record in a chain, which has none where it has no cell.
    pub(crate) fn read(
        alloc: Heap,
        octets: &[u8],
        cells: Cells,
        chain: &[u16],
    ) -> Result<Option<SlotOctets>, AllocError>
        ensures { IfOk result (λ found. found ≡ image.slot_of octets.now cells chain.now) }
    {
        if chain.is_empty() {
            return Ok(None);
        }
        let payload = payload_of(alloc, octets, cells, chain)?;
        let size = usize::from(number_at(&payload, 0));
        let mut octets = Vec::new(alloc);
        octets.extend_from_slice(part(&payload, 2, size))?;
        Ok(Some(SlotOctets { octets }))
    }

    /// The octets.
    pub(crate) fn as_slice(&self) -> &[u8]
        ensures { result.now ≡ self.now }
    {
        &self.octets
    }
}

// The payload of a chain's cells, one after another.
fn payload_of(
    alloc: Heap,
    octets: &[u8],
    cells: Cells,
    chain: &[u16],
) -> Result<Vec<u8, Heap>, AllocError>
    ensures { IfOk result (λ payload. payload.items ≡ flat_map (image.payload_of octets.now cells) chain.now) }
{
    let mut payload = Vec::new(alloc);
    for cell in chain {
        payload.extend_from_slice(part(octets, cell_place(cells.number(), *cell) + 2, PIECE_SIZE))?;
    }
    Ok(payload)
}
