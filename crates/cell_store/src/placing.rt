// A record's chain, written into cells that no other chain has.
ghost use Rattle.std.specs.Prelude.{◌≡◌, ◌+◌, ◌*◌, ◌≤◌, ◌++◌, length};
ghost use Rattle.arrayvec.specs.ArrayVec.{array_vec_len};
ghost use Rattle.eeprom.specs.StoreOf.{number_at, cells_for, record_in, two_octets, cell_size, piece_size, longest_record, longest_chain};
ghost use Rattle.cell_store.specs.Marks.{IsFreeRun};
ghost use Rattle.cell_store.specs.Placed.{MayWriteCells, WritesCells};
ghost use Rattle.cell_store.specs.Runs as runs;

use crate::chain::{Payload, append};
use crate::layout::{LARGEST_RUN, octets_of};
use crate::marks::{Marks, Run, unmark_chain};
use crate::store::cells_for;
use arrayvec::ArrayVec;
use eeprom::{Eeprom, EepromFault, NO_CELL, PIECE_SIZE, cell_place};

/// The octets of the cells of the longest chain.
type RunOctets = ArrayVec<u8, LARGEST_RUN>;

/// Makes this the payload of a record: its length, its octets, and zeros to the end of its last cell.
pub fn fill_payload(payload: &mut Payload, octets: &[u8])
    requires fits { length octets.now ≤ longest_record }
    ensures number { number_at payload.new.items 0 ≡ length octets.now }
    ensures record { record_in payload.new.items ≡ octets.now }
    ensures size { length payload.new.items ≡ piece_size * cells_for (length octets.now) }
{
    payload.clear();
    append(payload, &octets_of(octets.len() as u16));
    append(payload, octets);
    let whole = PIECE_SIZE * cells_for(octets.len()) as usize;
    append(payload, &[0; PIECE_SIZE][..whole - 2 - octets.len()]);
}

/// Makes these the octets of a run's cells, which have the payload from a piece on, and come before the cell `after`.
fn fill_run(octets: &mut RunOctets, run: Run, after: u16, payload: &[u8], piece: u16)
    requires most { run.count ≤ longest_chain }
    requires there { run.cell + run.count ≤ 4096 }
    requires payload { piece_size * (piece + run.count) ≤ length payload.now }
    ensures octets { octets.new.items ≡ runs.run_octets run.cell run.count after payload.now piece }
    ensures size { length octets.new.items ≡ cell_size * run.count }
{
    octets.clear();
    for step in 0..run.count {
        let next = if step + 1 < run.count {
            run.cell + step + 1
        } else {
            after
        };
        let place = PIECE_SIZE * (piece as usize + step as usize);
        push_cell(octets, next, &payload[place..place + PIECE_SIZE]);
    }
}

/// A cell's octets behind those of others: the number of the next cell, and a piece of payload.
fn push_cell(octets: &mut RunOctets, next: u16, piece: &[u8])
    requires size { length piece.now ≡ piece_size }
    requires room { array_vec_len octets.old + cell_size ≤ cell_size * longest_chain }
    ensures octets { octets.new.items ≡ octets.old.items ++ (two_octets next ++ piece.now) }
{
    append(octets, &octets_of(next));
    append(octets, piece);
}

/// Marks a run's cells, and links each to the next one, and the last to `after`.
fn take_run(marks: &mut Marks, links: &mut [u16], run: Run, after: u16)
    requires few { length marks.old ≤ 4096 }
    requires free { IsFreeRun marks.old run.cell run.count }
    requires links { run.cell + run.count ≤ length links.old }
    ensures marks { marks.new ≡ runs.run_marked marks.old run.cell run.count }
    ensures links { links.new ≡ runs.run_linked links.old run.cell run.count after }
{
    let mut next = after;
    for step in 0..run.count {
        let cell = run.cell + (run.count - 1 - step);
        marks.mark(cell);
        links[cell as usize] = next;
        next = cell;
    }
}

/// Writes a payload of so many pieces into cells that aren't marked, and answers the chain's first cell.
/// Each run of cells is one write, the last run first. Where a write fails, the marks are as they were.
pub fn write_cells<B: Eeprom>(
    bench: &mut B,
    cells: u16,
    marks: &mut Marks,
    links: &mut [u16],
    payload: &[u8],
    count: u16,
) -> Result<u16, EepromFault>
    requires { MayWriteCells cells marks.old links.old payload.now count (B.chip bench.old) }
    ensures { WritesCells B.chip B.faults cells payload.now count marks.old marks.new links.old links.new bench.old bench.new result }
{
    let mut octets = RunOctets::new();
    let mut first = NO_CELL;
    let mut left = count;
    while left > 0 {
        let run = marks.find_run(left);
        left -= run.count;
        fill_run(&mut octets, run, first, payload, left);
        if let Err(fault) = bench.write(cell_place(cells, run.cell), octets.as_slice()) {
            unmark_chain(marks, links, first);
            return Err(fault);
        }
        take_run(marks, links, run, first);
        first = run.cell;
    }
    Ok(first)
}
