// The directory in force: as it is written, or with the journal's entries behind an open gate.
ghost use Rattle.std.specs.Prelude.{◌≡◌, ◌+◌, ◌<◌, true, IfOk, length, option_map};
ghost use Rattle.std.specs.List.{list_all};
ghost use Rattle.eeprom.specs.StoreOf as image;
ghost use Rattle.eeprom.specs.declared.layout.TheConstants.{HEADER_SIZE};

use crate::cells::Cells;
use crate::octets::{number_at, octet_at};
use eeprom::{Entry, GATE_PLACE, HEADER_SIZE, Heap, NO_CELL, journal_place};
use std::alloc::AllocError;

/// The first cell of each slot's chain, where the journal behind an open gate is in range.
pub(crate) fn directory(
    alloc: Heap,
    octets: &[u8],
    cells: Cells,
) -> Result<Option<Vec<u16, Heap>>, AllocError>
    ensures { IfOk result (λ found. option_map (λ firsts. firsts.items) found ≡ image.directory octets.now cells) }
{
    let number = cells.number();
    let mut firsts = written_firsts(alloc, octets, number)?;
    if is_gate_open(octets) {
        let place = journal_place(number);
        let count = number_at(octets, place);
        if count > number {
            return Ok(None);
        }
        let entries = entries_at(alloc, octets, place + 2, count)?;
        if !are_entries(cells, &entries) {
            return Ok(None);
        }
        put_entries(cells, &entries, &mut firsts);
    }
    Ok(Some(firsts))
}

// Whether the gate is open.
fn is_gate_open(octets: &[u8]) -> bool
    ensures { result ≡ image.is_gate_open octets.now }
{
    octet_at(octets, GATE_PLACE) % 2 == 1
}

// The directory as it is written behind the header: so many numbers.
fn written_firsts(alloc: Heap, octets: &[u8], count: u16) -> Result<Vec<u16, Heap>, AllocError>
    ensures numbers { IfOk result (λ numbers. numbers.items ≡ image.numbers_at octets.now HEADER_SIZE count) }
    ensures count { IfOk result (λ numbers. length numbers.items ≡ count) }
{
    let count = usize::from(count);
    let mut numbers = Vec::with_capacity(alloc, count)?;
    for index in 0..count {
        numbers.push(number_at(octets, HEADER_SIZE + 2 * index))?;
    }
    Ok(numbers)
}

// So many entries from a place on.
fn entries_at(
    alloc: Heap,
    octets: &[u8],
    place: usize,
    count: u16,
) -> Result<Vec<Entry, Heap>, AllocError>
    requires near { place < 65536 }
    ensures { IfOk result (λ entries. entries.items ≡ image.entries_at octets.now place count) }
{
    let count = usize::from(count);
    let mut entries = Vec::with_capacity(alloc, count)?;
    for index in 0..count {
        entries.push(entry_at(octets, place + 4 * index))?;
    }
    Ok(entries)
}

// The entry in the four octets at a place.
fn entry_at(octets: &[u8], place: usize) -> Entry
    requires near { place < 1048576 }
    ensures { result ≡ record { slot = image.number_at octets.now place; first = image.number_at octets.now (place + 2) } }
{
    Entry {
        slot: number_at(octets, place),
        first: number_at(octets, place + 2),
    }
}

// Whether each entry names a slot, and a cell or none.
fn are_entries(cells: Cells, entries: &[Entry]) -> bool
    ensures { result ≡ list_all (image.is_entry cells) entries.now }
{
    entries.iter().all(|entry| is_entry(cells, *entry))
}

// Whether an entry names a slot, and a cell or none.
fn is_entry(cells: Cells, entry: Entry) -> bool
    ensures { result ≡ image.is_entry cells entry }
{
    let number = cells.number();
    entry.slot < number && (entry.first < 2 * number || entry.first == NO_CELL)
}

// Puts entries into a directory, one after another.
fn put_entries(cells: Cells, entries: &[Entry], firsts: &mut [u16])
    requires entries { list_all (image.is_entry cells) entries.now ≡ true }
    requires count { length firsts.old ≡ cells }
    ensures { firsts.new ≡ image.with_entries entries.now firsts.old }
{
    for entry in entries {
        firsts[usize::from(entry.slot)] = entry.first;
    }
}
