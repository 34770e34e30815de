// The cells of an EEPROM, of which it is kept in memory which are used, and how these are linked.
ghost use Rattle.std.specs.Prelude.{◌≡◌, ◌≤◌, ℕ, List, length, IfOk};
ghost use Rattle.eeprom.specs.Frame.{HasRoom};
ghost use Rattle.eeprom.specs.StoreOf.{longest_record, longest_chain};
ghost use Rattle.eeprom.specs.StoreOf as image;
ghost use Rattle.cell_store.specs.Chains.{steps};
ghost use Rattle.cell_store.specs.Cells.{CountsCells, FreesChain, IsCellCount, all_free, IsUsedChain};
ghost use Rattle.cell_store.specs.Claims.{ClaimsRecord};
ghost use Rattle.cell_store.specs.Writing.{WritesChain};
ghost use Rattle.cell_store.specs.Reading.{ReadsChain};

use crate::chain::{Payload, copy_record, read_record};
use crate::claims::claim_cells;
use crate::marks::{Marks, unmark_chain};
use crate::placing::{fill_payload, write_cells};
use crate::{CellRefusal, ClaimRefusal};
use eeprom::{Eeprom, EepromFault, Heap, LONGEST_CHAIN, NO_CELL, PIECE_SIZE, RecordOctets};
use std::alloc::AllocError;
use std::marker::Model;

/// Cells, twice as many as records may have. Chains of them are used, and the others are free.
#[derive(Drop)]
pub struct CellStore {
    cells: u16,
    pub(crate) used: Marks,
    /// The number of the next cell, for each cell that is used.
    links: Vec<u16, Heap>,
}

impl Model for CellStore {
    ghost use Rattle.cell_store.specs.Cells.{Cells, IsInRange, cells_from};

    ghost Value = { Cells };

    ghost view = { λ store. cells_from store.cells store.used store.links.items };

    ghost invariant = { λ store. IsInRange (cells_from store.cells store.used store.links.items) };
}

impl CellStore {
    /// A store of cells of which none is used. All memory that it needs is taken here.
    pub fn with_room(alloc: Heap, cells: u16) -> Result<CellStore, AllocError>
        requires { IsCellCount cells }
        ensures { IfOk result (λ store. store ≡ all_free cells) }
    {
        let count = 2 * cells;
        Ok(CellStore {
            cells,
            used: Marks::with_room(alloc, count)?,
            links: vec![in alloc; NO_CELL; count as usize]?,
        })
    }

    /// How many cells records may have; there are twice as many.
    pub fn cells(&self) -> u16
        ensures { CountsCells self.now.cells result }
    {
        self.cells
    }

    /// Claims the chain that begins at a cell, hands out the record that the image has in it, and answers how many cells it
    /// has. As many octets are read as these cells have. After a refusal the store of cells isn't to be used again.
    pub fn claim_record<B: Eeprom>(
        &mut self,
        bench: &mut B,
        first: u16,
        out: &mut RecordOctets,
    ) -> Result<u16, ClaimRefusal>
        requires room { HasRoom self.old.cells (B.chip bench.old) }
        ensures { ClaimsRecord B.chip B.faults B.octets_read first out.new.items self.old self.new bench.old bench.new result }
    {
        let used = &mut self.used;
        let links = self.links.as_mut_slice();
        let mut payload = Payload::new();
        let count = claim_cells(bench, self.cells, used, links, first, &mut payload)?;
        copy_record(payload.as_slice(), out);
        Ok(count)
    }

    /// Writes a record into a chain of free cells, and answers its first cell. The cells are used once all is written.
    pub fn write_chain<B: Eeprom>(
        &mut self,
        bench: &mut B,
        octets: &[u8],
    ) -> Result<u16, CellRefusal>
        requires some { 1 ≤ length octets.now }
        requires most { length octets.now ≤ longest_record }
        requires room { HasRoom self.old.cells (B.chip bench.old) }
        ensures { WritesChain B.chip B.faults octets.now self.old self.new bench.old bench.new result }
    {
        let count = cells_for(octets.len());
        if count > self.used.count_free() {
            return Err(CellRefusal::NoCell);
        }
        let mut payload = Payload::new();
        fill_payload(&mut payload, octets);
        let first = write_cells(
            bench,
            self.cells,
            &mut self.used,
            self.links.as_mut_slice(),
            payload.as_slice(),
            count,
        )?;
        Ok(first)
    }

    /// Reads the record in the chain that begins at a cell.
    pub fn read_chain<B: Eeprom>(
        &self,
        bench: &mut B,
        first: u16,
        out: &mut RecordOctets,
    ) -> Result<(), EepromFault>
        requires room { HasRoom self.now.cells (B.chip bench.old) }
        ensures { ReadsChain B.chip B.faults B.octets_read self.now.cells first out.new.items bench.old bench.new result }
    {
        read_record(bench, self.cells, first, out)
    }

    /// Frees the cells of the used chain that begins at a cell.
    pub fn free_chain(&mut self, first: u16)
        ensures { FreesChain self.old self.new first }
    {
        unmark_chain(&mut self.used, self.links.as_slice(), first);
    }

    /// How many cells the used chain has that begins at a cell.
    pub fn length_of_chain(&self, first: u16) -> u16
        ensures chain { (chain : List ℕ) → IsUsedChain self.now first chain → result ≡ length chain }
        ensures length { result ≡ steps self.now.links longest_chain first }
        ensures most { result ≤ longest_chain }
    {
        let mut cell = first as usize;
        for count in 0..LONGEST_CHAIN {
            if cell >= self.links.len() {
                return count;
            }
            cell = self.links[cell] as usize;
        }
        LONGEST_CHAIN
    }
}

/// The cells of a record with so many octets.
pub fn cells_for(size: usize) -> u16
    requires most { size ≤ longest_record }
    ensures { result ≡ image.cells_for size }
{
    ((size + 31) / PIECE_SIZE) as u16
}
