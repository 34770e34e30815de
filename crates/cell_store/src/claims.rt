// The claim of a record's chain in an image: each of its cells is free before, and used then.
ghost use Rattle.std.specs.Prelude.{◌≡◌, ◌≤◌, length};
ghost use Rattle.arrayvec.specs.ArrayVec.{array_vec_len};
ghost use Rattle.cell_store.specs.Cells.{cells_from};
ghost use Rattle.cell_store.specs.Claims.{ClaimsCells, ClaimsOne, MayClaim, MayClaimCell};
ghost use Rattle.cell_store.specs.Claiming.{record_cells};

use crate::ClaimRefusal;
use crate::chain::{Payload, read_cell};
use crate::layout::number_of;
use crate::marks::Marks;
use crate::store::cells_for;
use eeprom::{Eeprom, LONGEST_RECORD, NO_CELL};

/// Claims the chain that begins at `first`, and answers how many cells it has: exactly those of its record. The payload of
/// these cells is kept.
pub fn claim_cells<B: Eeprom>(
    bench: &mut B,
    cells: u16,
    used: &mut Marks,
    links: &mut [u16],
    first: u16,
    payload: &mut Payload,
) -> Result<u16, ClaimRefusal>
    requires { MayClaim cells used.old links.old (B.chip bench.old) }
    ensures { ClaimsCells B.chip B.faults B.octets_read cells first payload.new.items used.old used.new links.old links.new bench.old bench.new result }
{
    payload.clear();
    let mut next = claim_cell(bench, cells, used, links, first, payload)?;
    let Some(count) = record_cells(payload.as_slice()) else {
        return Err(ClaimRefusal::BadChain);
    };
    for _cell in 1..count {
        next = claim_cell(bench, cells, used, links, next, payload)?;
    }
    if next == NO_CELL {
        Ok(count)
    } else {
        Err(ClaimRefusal::BadChain)
    }
}

/// Claims a cell: reads it, keeps its link, and answers it.
fn claim_cell<B: Eeprom>(
    bench: &mut B,
    cells: u16,
    used: &mut Marks,
    links: &mut [u16],
    cell: u16,
    payload: &mut Payload,
) -> Result<u16, ClaimRefusal>
    requires { MayClaimCell cells used.old links.old (array_vec_len payload.old) (B.chip bench.old) }
    ensures { ClaimsOne B.chip B.faults B.octets_read cells cell payload.old.items payload.new.items (cells_from cells used.old links.old) (cells_from cells used.new links.new) bench.old bench.new result }
{
    let place = cell as usize;
    if place >= used.len() || used.is_marked(cell) {
        return Err(ClaimRefusal::BadChain);
    }
    let next = read_cell(bench, cells, cell, payload)?;
    used.mark(cell);
    links[place] = next;
    Ok(next)
}

/// How many cells the record has that begins with these octets of payload, where they say a length that a record may have.
fn record_cells(payload: &[u8]) -> Option<u16>
    requires some { 2 ≤ length payload.now }
    ensures { result ≡ record_cells payload.now }
{
    let size = number_of(payload[0], payload[1]) as usize;
    if 1 <= size && size <= LONGEST_RECORD {
        Some(cells_for(size))
    } else {
        None
    }
}
