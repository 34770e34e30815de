// Chains of cells: which cells they have, and what tells those of records.
ghost use Rattle.std.specs.Prelude.{◌≡◌, ◌<◌, ◌*◌, ◌&&◌, IfOk, length, nat_le, option_map};
ghost use Rattle.eeprom.specs.StoreOf as image;

use crate::cells::Cells;
use crate::octets::number_at;
use eeprom::{Heap, LONGEST_RECORD, NO_CELL, PIECE_SIZE, cell_place};
use std::alloc::AllocError;

/// The cells from this one on, linked in order, where they end within as many as an image has.
pub(crate) fn chain_of(
    alloc: Heap,
    octets: &[u8],
    cells: Cells,
    first: u16,
) -> Result<Option<Vec<u16, Heap>>, AllocError>
    ensures { IfOk result (λ found. option_map (λ chain. chain.items) found ≡ image.chain_of octets.now cells (2 * cells) first) }
{
    let number = cells.number();
    let mut chain = Vec::new(alloc);
    let mut cell = first;
    for _ in 0..2 * usize::from(number) {
        if cell == NO_CELL {
            return Ok(Some(chain));
        }
        if cell >= 2 * number {
            return Ok(None);
        }
        chain.push(cell)?;
        cell = number_at(octets, cell_place(number, cell));
    }
    Ok(if cell == NO_CELL { Some(chain) } else { None })
}

/// Whether a chain has a record of at least one octet, and exactly its cells.
pub(crate) fn is_record(octets: &[u8], cells: Cells, chain: &[u16]) -> bool
    ensures { result ≡ image.is_record octets.now cells chain.now }
{
    let [first, ..] = chain else {
        return true;
    };
    let size = usize::from(number_at(octets, cell_place(cells.number(), *first) + 2));
    1 <= size && size <= LONGEST_RECORD && chain.len() == cells_for(size)
}

// How many cells a record of so many octets takes.
fn cells_for(size: usize) -> usize
    requires { size < 65536 }
    ensures { result ≡ image.cells_for size }
{
    (size + 31) / PIECE_SIZE
}

/// Whether no cell stands twice among those of all chains, and they are at most so many.
pub(crate) fn are_apart(cells: Cells, used: &[u16]) -> bool
    ensures { result ≡ (image.is_distinct used.now && nat_le (length used.now) cells) }
{
    used.len() <= usize::from(cells.number()) && is_distinct(used)
}

// Whether no cell stands twice.
fn is_distinct(cells: &[u16]) -> bool
    ensures { result ≡ image.is_distinct cells.now }
{
    let mut rest = cells;
    while let [first, behind @ ..] = rest {
        if behind.contains(first) {
            return false;
        }
        rest = behind;
    }
    true
}
