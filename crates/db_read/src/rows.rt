// The rows of a table that a cursor chooses, found by the index and read one at a time.
ghost use Rattle.std.specs.Prelude.{◌≡◌, ◌<◌, ◌==◌, ◌*◌, ℕ, List, None, IfOk, IsTrue, if◌then◌else◌, option_map, slice_index_or};
ghost use Rattle.std.specs.List.{find};
ghost use Rattle.std.proofs.lemmas.Map.Entries.{option_filter};
ghost use Rattle.eeprom.specs.Slots.{has};
ghost use Rattle.eeprom.specs.StoreOf.{cell_size};
ghost use Rattle.record_store.specs.Held.{StandsFor, record_at};
ghost use Rattle.scql_base.specs.Row.{row_size};
ghost use Rattle.scql_base.specs.declared.cursor.Place.{Place};
ghost use Rattle.scql_model.specs.Moves as moves;
ghost use Rattle.catalog_codec.specs.Catalog.{row_kind};
ghost use Rattle.record_table.specs.Listed.{at_slot, has_kind_mark, kind_cells, listed};
ghost use Rattle.row_index.specs.Index.{WhereIndexed};
ghost use Rattle.row_index.specs.Places.{is_later_in, place_stamp, row_places};
ghost use Rattle.row_table.specs.Found.{is_row_after};
ghost use Rattle.cursor.specs.Costs.{cost_behind, cost_of, size_handed};
ghost use Rattle.cursor.specs.Moved.{handed, row_handed};
ghost use Rattle.db_read.specs.Chosen.{IsNextShown};
ghost use Rattle.db_read.specs.Costs.{cost_passed, cost_reached, row_costs};
ghost use Rattle.db_read.specs.ReadRows.{ReadsRow, ReadsShown};

use crate::chosen::{Chosen, cut_into};
use crate::reader::Reader;
use crate::scan::RowRoom;
use catalog_codec::Record;
use eeprom::{Eeprom, EepromFault};
use record_store::{Side, Store};
use row_codec::decode_into;
use row_index::RowIndex;
use scql_base::{Row, RowRecord};

/// The stamp of the next chosen row behind a stamp. Where all rows are chosen the index tells it, and no row is read.
pub(crate) fn next_chosen<B: Eeprom>(
    reader: &mut Reader<'_, B>,
    chosen: &Chosen<'_>,
    stamp: u32,
    room: &mut RowRoom,
) -> Result<Option<u32>, EepromFault>
    ensures { ReadsShown chosen.now (λ next rows. next ≡ option_map (λ row. row.stamp) (moves.row_behind (Place.At stamp) rows)) (λ _. 0) (cost_behind stamp) reader.old reader.new result }
{
    if chosen.shows_all() {
        Ok(stamp_behind(
            reader.store,
            reader.index,
            reader.side,
            chosen.table,
            stamp,
            &mut room.near,
        ))
    } else {
        next_read(reader, chosen, stamp, room)
    }
}

/// Hands out what is shown of the next chosen row behind a stamp, and answers its stamp. It and the rows between are read once.
pub(crate) fn next_chosen_row<B: Eeprom>(
    reader: &mut Reader<'_, B>,
    chosen: &Chosen<'_>,
    stamp: u32,
    out: &mut Row,
    room: &mut RowRoom,
) -> Result<Option<u32>, EepromFault>
    ensures { ReadsShown chosen.now (λ next rows. row_handed next out.new ≡ moves.row_behind (Place.At stamp) rows) (λ next. size_handed next out.new) (cost_behind stamp) reader.old reader.new result }
{
    if shown_behind(reader, chosen, stamp, room)? {
        cut_into(chosen.places, &room.row.row, out);
        Ok(Some(room.row.stamp))
    } else {
        Ok(None)
    }
}

/// Hands out what is shown of the row of a stamp, and answers whether it is chosen.
pub(crate) fn chosen_row<B: Eeprom>(
    reader: &mut Reader<'_, B>,
    chosen: &Chosen<'_>,
    stamp: u32,
    out: &mut Row,
    room: &mut RowRoom,
) -> Result<bool, EepromFault>
    ensures { ReadsShown chosen.now (λ there rows. handed there out.new ≡ option_map (λ row. row.values) (moves.row_at stamp rows)) (λ there. if there then row_size out.new else 0) (λ _. cost_of stamp)
        reader.old reader.new result }
{
    if !row_of_table(reader, chosen.table, stamp, room)? {
        return Ok(false);
    }
    if !chosen.shows(&room.row.row) {
        return Ok(false);
    }
    cut_into(chosen.places, &room.row.row, out);
    Ok(true)
}

// The stamp of the row of a table behind a stamp, as the index has it.
fn stamp_behind(
    store: &Store,
    index: &RowIndex,
    side: Side,
    table: u32,
    stamp: u32,
    near: &mut usize,
) -> Option<u32>
    ensures { WhereIndexed index.now store.now side (λ slots. result ≡ option_map place_stamp (find (is_later_in table stamp) (row_places slots))) }
{
    let (next, _) = index.next_after(store, side, table, stamp, near)?;
    Some(next)
}

// The stamp of the next chosen row behind a stamp, which is read, as the rows between are.
fn next_read<B: Eeprom>(
    reader: &mut Reader<'_, B>,
    chosen: &Chosen<'_>,
    stamp: u32,
    room: &mut RowRoom,
) -> Result<Option<u32>, EepromFault>
    ensures { ReadsShown chosen.now (λ next rows. next ≡ option_map (λ row. row.stamp) (moves.row_behind (Place.At stamp) rows)) (λ _. 0) (cost_behind stamp) reader.old reader.new result }
{
    if shown_behind(reader, chosen, stamp, room)? {
        Ok(Some(room.row.stamp))
    } else {
        Ok(None)
    }
}

// Reads the next chosen row behind a stamp into a place, and answers whether there is one. The rows between are read there too.
// It is inlined, as what it calls is, since a scan comes here for each row.
#[inline(always)]
fn shown_behind<B: Eeprom>(
    reader: &mut Reader<'_, B>,
    chosen: &Chosen<'_>,
    stamp: u32,
    room: &mut RowRoom,
) -> Result<bool, EepromFault>
    ensures { ReadsRow room.new.row (IsNextShown chosen.now stamp) (λ row slots. cost_passed chosen.now.table stamp slots row) reader.old reader.new result }
{
    let mut passed = stamp;
    while row_behind(reader, chosen.table, passed, room)? {
        if chosen.shows(&room.row.row) {
            return Ok(true);
        }
        passed = room.row.stamp();
    }
    Ok(false)
}

// Reads the row of a table behind a stamp into a place, and answers whether there is one.
#[inline(always)]
fn row_behind<B: Eeprom>(
    reader: &mut Reader<'_, B>,
    table: u32,
    stamp: u32,
    room: &mut RowRoom,
) -> Result<bool, EepromFault>
    ensures behind { IfOk result (λ there. IsTrue there → stamp < room.new.row.stamp) }
    ensures reads { ReadsRow room.new.row (λ row slots. row ≡ find (is_row_after table stamp) (listed row_kind slots)) (λ row slots. cost_reached table slots row) reader.old reader.new result }
{
    let (store, index) = (reader.store, reader.index);
    let Some((_, slot)) = index.next_after(store, reader.side, table, stamp, &mut room.near) else {
        return Ok(false);
    };
    if !row_in(reader, slot, room)? {
        return Ok(false);
    }
    // No stamp is passed twice, whatever an image tells that isn't a valid one.
    if room.row.stamp <= stamp {
        return Ok(false);
    }
    Ok(true)
}

// Reads the row of a stamp into a place, and answers whether there is one of the table. A row of another table isn't read.
fn row_of_table<B: Eeprom>(
    reader: &mut Reader<'_, B>,
    table: u32,
    stamp: u32,
    room: &mut RowRoom,
) -> Result<bool, EepromFault>
    ensures { ReadsRow room.new.row (λ row slots. row ≡ option_filter (λ row. row.table == table) (find (has row_kind.key stamp) (listed row_kind slots))) (λ _ slots. cost_of stamp (row_costs table slots))
        reader.old reader.new result }
{
    let (store, index) = (reader.store, reader.index);
    let Some(slot) = index.find(store, reader.side, table, stamp, room.near) else {
        return Ok(false);
    };
    row_in(reader, slot, room)
}

/// Reads the row of a slot into a place, and answers whether the slot has one.
#[inline(always)]
pub fn row_in<B: Eeprom>(
    reader: &mut Reader<'_, B>,
    slot: u16,
    room: &mut RowRoom,
) -> Result<bool, EepromFault>
    requires slot { slot < reader.old.store.now.chains.cells }
    ensures { ReadsRow room.new.row (λ row slots. row ≡ at_slot row_kind slot slots) (λ _ slots. cell_size * kind_cells row_kind (slice_index_or slots slot None)) reader.old reader.new result }
{
    if !is_row(reader.store, reader.side, slot) {
        return Ok(false);
    }
    let store = reader.store;
    if !store.get(reader.bench, reader.side, slot, &mut room.octets)? {
        return Ok(false);
    }
    Ok(decode_into(room.octets.as_slice(), &mut room.row).is_some())
}

// Whether the first octet of a slot's record is that of a row.
fn is_row(store: &Store, side: Side, slot: u16) -> bool
    requires { slot < store.now.chains.cells }
    ensures { (image : List ℕ) → StandsFor store.now image → result ≡ has_kind_mark row_kind (record_at store.now side slot image) }
{
    match store.first_octet(side, slot) {
        Some(octet) => RowRecord::has_mark(octet),
        None => false,
    }
}
