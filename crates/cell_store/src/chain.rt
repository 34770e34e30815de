// The record of a chain of cells. A cell has the number of the next one and 30 octets of payload.
ghost use Rattle.std.specs.Prelude.{◌≡◌, ◌+◌, ◌≤◌, ◌++◌, length, IfOk};
ghost use Rattle.arrayvec.specs.ArrayVec.{array_vec_len};
ghost use Rattle.eeprom.specs.Calls.{FitsInto, ReadsOnly};
ghost use Rattle.eeprom.specs.Fault.{each_error};
ghost use Rattle.eeprom.specs.StoreOf.{record_in, number_at, longest_record};
ghost use Rattle.cell_store.specs.Reading.{MayReadAlong, MayReadCell, MayReadLonger, ReadsCell, ReadsCells, ReadsChain};
ghost use Rattle.cell_store.specs.Walk.{ReadsAlong, ReadsLonger};

use crate::layout::{LARGEST_PAYLOAD, LINK_SIZE, number_of};
use arrayvec::ArrayVec;
use eeprom::{
    CELL_SIZE, Eeprom, EepromFault, LONGEST_CHAIN, LONGEST_RECORD, PIECE_SIZE, RecordOctets,
    cell_place,
};

/// The payload of one cell.
type Piece = ArrayVec<u8, PIECE_SIZE>;

/// The payload of the longest chain.
pub type Payload = ArrayVec<u8, LARGEST_PAYLOAD>;

/// Reads the record whose chain begins at `first`. Most chains have one cell, and need no room for the payload of more.
pub fn read_record<B: Eeprom>(
    bench: &mut B,
    cells: u16,
    first: u16,
    out: &mut RecordOctets,
) -> Result<(), EepromFault>
    requires fits { FitsInto cells (B.chip bench.old) }
    ensures { ReadsChain B.chip B.faults B.octets_read cells first out.new.items bench.old bench.new result }
{
    let mut piece = Piece::new();
    let next = read_payload(bench, cells, first, 1, &mut piece)?;
    if next as u32 >= 2 * cells as u32 {
        copy_record(piece.as_slice(), out);
        return Ok(());
    }
    read_longer(bench, cells, next, piece.as_slice(), out)
}

/// Reads the record of a chain of several cells, from the second one on, behind the piece of payload of the first.
fn read_longer<B: Eeprom>(
    bench: &mut B,
    cells: u16,
    second: u16,
    piece: &[u8],
    out: &mut RecordOctets,
) -> Result<(), EepromFault>
    requires { MayReadLonger cells piece.now (B.chip bench.old) }
    ensures { ReadsLonger B.chip B.faults B.octets_read cells second piece.now out.new.items bench.old bench.new result }
{
    let mut payload = Payload::new();
    append(&mut payload, piece);
    read_payload(bench, cells, second, LONGEST_CHAIN - 1, &mut payload)?;
    copy_record(payload.as_slice(), out);
    Ok(())
}

/// Reads the payload of so many cells of a chain, from one on, or to the chain's end, behind octets that are there already, and
/// answers the number of the cell that comes next.
fn read_payload<B: Eeprom, const CAP: usize>(
    bench: &mut B,
    cells: u16,
    first: u16,
    most: u16,
    payload: &mut ArrayVec<u8, CAP>,
) -> Result<u16, EepromFault>
    requires { MayReadAlong cells most (array_vec_len payload.old) CAP (B.chip bench.old) }
    ensures { ReadsAlong B.chip B.faults B.octets_read cells first most payload.old.items payload.new.items bench.old bench.new result }
{
    let mut cell = first;
    for _step in 0..most {
        if cell as u32 >= 2 * cells as u32 {
            break;
        }
        cell = read_cell(bench, cells, cell, payload)?;
    }
    Ok(cell)
}

/// Reads a cell: appends its payload, and answers the number of the next cell.
pub fn read_cell<B: Eeprom, const CAP: usize>(
    bench: &mut B,
    cells: u16,
    cell: u16,
    payload: &mut ArrayVec<u8, CAP>,
) -> Result<u16, EepromFault>
    requires { MayReadCell cells cell (array_vec_len payload.old) CAP (B.chip bench.old) }
    ensures cell { IfOk result (λ next. ReadsCell cells cell next (B.chip bench.old).image payload.old.items payload.new.items) }
    ensures reads { ReadsOnly each_error B.chip B.faults B.octets_read (ReadsCells 1) bench.old bench.new result }
{
    let mut octets = [0; CELL_SIZE];
    bench.read(cell_place(cells, cell), &mut octets)?;
    append(payload, &octets[LINK_SIZE..]);
    Ok(number_of(octets[0], octets[1]))
}

/// Appends octets, for which there is room.
pub fn append<const CAP: usize>(out: &mut ArrayVec<u8, CAP>, octets: &[u8])
    requires room { length out.old.items + length octets.now ≤ CAP }
    ensures appends { out.new.items ≡ out.old.items ++ octets.now }
{
    let fits = out.try_extend_from_slice(octets).is_ok();
    prove!(fits);
}

/// Copies the record out of a chain's payload, where one is there.
pub fn copy_record(payload: &[u8], out: &mut RecordOctets)
    ensures record { number_at payload.now 0 ≤ longest_record → 2 + number_at payload.now 0 ≤ length payload.now → out.new.items ≡ record_in payload.now }
{
    out.clear();
    let [high, low, rest @ ..] = payload else {
        return;
    };
    if let Some(octets) = rest.get(..number_of(*high, *low) as usize) {
        let _ = out.try_extend_from_slice(octets);
    }
}
