// What an image says of its store: its header and its directory.
ghost use Rattle.std.specs.Prelude.{◌≡◌, ◌*◌, ◌%◌, ◌==◌, ◌&&◌, if◌then◌else◌, Some, None, length, is_some, slice_index, IfSome, IfOk, OnOk, IsErrOf};
ghost use Rattle.eeprom.specs.Calls.{ReadsOnly};
ghost use Rattle.eeprom.specs.Chip.{Becomes, RisesBy, RisesAtMost};
ghost use Rattle.eeprom.specs.StoreOf.{fresh_row_limit, migrated_row_limit, number_at, numbers_at, row_limit, is_gate_open, written_directory};
ghost use Rattle.record_store.specs.Header.{begins_store, IsHeader};
ghost use Rattle.record_store.specs.Opens.{ReadsHeader};
ghost use Rattle.record_store.specs.Faults.{is_open_fault};

use crate::OpenRefusal;
use crate::layout::FORMAT;
use cell_store::{number_of, octets_of};
use eeprom::{
    Eeprom, FEWEST_CELLS, HEADER_SIZE, Heap, LARGEST_DIRECTORY, MIGRATED_ROW_LIMIT, MOST_CELLS,
    ROW_LIMIT, image_size,
};
use std::alloc::AllocError;

/// How many octets of an image say whether it has a store, of which size and with which rows.
const FRONT: usize = 11;

/// What the first octets of an image say.
#[derive(Clone, Copy)]
pub struct Header {
    pub cells: u16,
    /// How many octets a row may have.
    pub row_limit: u16,
    /// Whether the gate is open, so that the journal is to be replayed.
    pub is_open: bool,
}

/// Reads what an image begins with, where it begins as a store does.
pub fn read_header<B: Eeprom>(bench: &mut B) -> Result<Header, OpenRefusal>
    ensures { ReadsHeader B.chip B.faults B.octets_read bench.old bench.new result }
{
    let size = bench.size();
    if size < FRONT {
        return Err(OpenRefusal::NotACard);
    }
    let mut octets = [0; FRONT];
    bench.read(0, &mut octets)?;
    header_of(&octets, size).ok_or(OpenRefusal::NotACard)
}

fn header_of(octets: &[u8; FRONT], size: usize) -> Option<Header>
    ensures there { is_some result ≡ begins_store octets.now size }
    ensures range { IfSome result (λ header. IsHeader size header) }
    ensures cells { IfSome result (λ header. header.cells ≡ number_at octets.now 6) }
    ensures limit { IfSome result (λ header. header.row_limit ≡ row_limit octets.now) }
    ensures gate { IfSome result (λ header. header.is_open ≡ is_gate_open octets.now) }
{
    let [
        b'S',
        b'C',
        b'Q',
        b'L',
        FORMAT,
        version,
        high,
        low,
        gate,
        limit_high,
        limit_low,
    ] = octets
    else {
        return None;
    };
    let cells = number_of(*high, *low);
    if cells < FEWEST_CELLS || cells > MOST_CELLS || size < image_size(cells) {
        return None;
    }
    Some(Header {
        cells,
        row_limit: row_limit_of(*version, [*limit_high, *limit_low])?,
        is_open: *gate % 2 == 1,
    })
}

/// How many octets a row may have, by the version and the two octets that repeat the limit on a card that was migrated.
fn row_limit_of(version: u8, limit: [u8; 2]) -> Option<u16>
    ensures { result ≡ (if version % 2 == 0 then Some fresh_row_limit else (if (slice_index limit 0 == 0x03) && (slice_index limit 1 == 0xFC) then Some migrated_row_limit else None)) }
{
    if version % 2 == 0 {
        Some(ROW_LIMIT)
    } else if limit == octets_of(MIGRATED_ROW_LIMIT) {
        Some(MIGRATED_ROW_LIMIT)
    } else {
        None
    }
}

/// Reads the directory of an image.
pub fn read_directory<B: Eeprom>(
    alloc: Heap,
    bench: &mut B,
    header: Header,
) -> Result<Vec<u16, Heap>, OpenRefusal>
    requires header { IsHeader (B.chip bench.old).still.size header }
    ensures directory { IfOk result (λ firsts. IfSome (B.chip bench.old).image
        (λ image. firsts.items ≡ written_directory image header.cells)) }
    ensures count { IfOk result (λ firsts. length firsts.items ≡ header.cells) }
    ensures a_card { ¬ (IsErrOf result OpenRefusal.NotACard) }
    ensures octets_read { OnOk result (Becomes (RisesBy (2 * header.cells)) (B.octets_read bench.old) (B.octets_read bench.new)) }
    ensures reads { ReadsOnly is_open_fault B.chip B.faults B.octets_read (RisesAtMost (2 * header.cells)) bench.old bench.new result }
{
    let mut octets = [0; LARGEST_DIRECTORY];
    let directory = &mut octets[..2 * header.cells as usize];
    bench.read(HEADER_SIZE, directory)?;
    Ok(numbers_of(alloc, directory, header.cells)?)
}

/// The numbers of a directory's octets.
fn numbers_of(alloc: Heap, octets: &[u8], count: u16) -> Result<Vec<u16, Heap>, AllocError>
    requires size { length octets.now ≡ 2 * count }
    ensures numbers { IfOk result (λ firsts. firsts.items ≡ numbers_at octets.now 0 count) }
    ensures count { IfOk result (λ firsts. length firsts.items ≡ count) }
{
    let count = count as usize;
    let mut firsts = Vec::with_capacity(alloc, count)?;
    for slot in 0..count {
        firsts.push(number_of(octets[2 * slot], octets[2 * slot + 1]))?;
    }
    Ok(firsts)
}
