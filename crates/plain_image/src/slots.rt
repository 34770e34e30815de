// The records at the first cells of a directory.
ghost use Rattle.std.specs.Prelude.{◌≡◌, IfOk, option_map};
ghost use Rattle.eeprom.specs.StoreOf as image;

use crate::cells::Cells;
use crate::chains::{are_apart, chain_of, is_record};
use crate::slot::SlotOctets;
use eeprom::Heap;
use std::alloc::AllocError;

/// The records at the first cells of a directory, where each is in a chain of its own.
pub(crate) fn slots_at(
    alloc: Heap,
    octets: &[u8],
    cells: Cells,
    firsts: &[u16],
) -> Result<Option<Vec<Option<SlotOctets>, Heap>>, AllocError>
    ensures { IfOk result (λ found. option_map (λ slots. slots.items) found ≡ image.slots_at octets.now cells firsts.now) }
{
    let mut used = Vec::new(alloc);
    let mut slots = Vec::with_capacity(alloc, firsts.len())?;
    for first in firsts {
        let Some(chain) = chain_of(alloc, octets, cells, *first)? else {
            return Ok(None);
        };
        if !is_record(octets, cells, &chain) {
            return Ok(None);
        }
        used.extend_from_slice(&chain)?;
        slots.push(SlotOctets::read(alloc, octets, cells, &chain)?)?;
    }
    Ok(if are_apart(cells, &used) {
        Some(slots)
    } else {
        None
    })
}
