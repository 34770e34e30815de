// The record of one slot, if it is of a kind.
ghost use Rattle.std.specs.Prelude.{◌≡◌, ◌<◌, ◌≤◌, ℕ, List, Some, None, false, IfOk, IfSome, if◌then◌else◌, slice_index_or};
ghost use Rattle.record_store.specs.Held.{StandsFor, record_at};
ghost use Rattle.record_store.specs.declared.side.Side.{Side};
ghost use Rattle.record_table.specs.Asking.{slots_asked};
ghost use Rattle.record_table.specs.Listed.{at_slot, kind_cells};
ghost use Rattle.record_table.specs.Listed as listed;
ghost use Rattle.record_table.specs.Tagged.{IsTagged, is_searched};
ghost use Rattle.record_table.specs.Reading.{ReadsSide};

use catalog_codec::Record;
use eeprom::{Eeprom, EepromFault};
use record_store::{RecordOctets, Side, SideReader, Store, Tag};
use scql_base::RowRecord;

/// The record of a slot, if it is of the kind. A record with another first octet isn't read. Records are read into `octets`.
pub fn read_entry<R: Record, B: Eeprom>(
    reader: &mut SideReader<'_, '_, B>,
    slot: u16,
    octets: &mut RecordOctets,
) -> Result<Option<R>, EepromFault>
    requires slot { slot < reader.old.store.now.chains.cells }
    ensures value { IfOk result (λ value. IfSome (slots_asked reader.old) (λ slots. value ≡ at_slot R.kind slot slots)) }
    ensures reads { ReadsSide (λ slots. kind_cells R.kind (slice_index_or slots slot None)) reader.old reader.new result }
{
    if !is_marked::<R>(reader.store, reader.side, slot) {
        return Ok(None);
    }
    if reader.store.get(reader.bench, reader.side, slot, octets)? {
        Ok(R::decode(octets.as_slice()))
    } else {
        Ok(None)
    }
}

/// Reads the record of a slot into a place, if it is of the kind, and answers whether it did. A record with another first octet
/// isn't read. Records are read into `octets`.
pub(crate) fn read_into<R: Record, B: Eeprom>(
    reader: &mut SideReader<'_, '_, B>,
    slot: u16,
    octets: &mut RecordOctets,
    place: &mut Option<R>,
) -> Result<bool, EepromFault>
    requires slot { slot < reader.old.store.now.chains.cells }
    ensures value { IfOk result (λ read. IfSome (slots_asked reader.old) (λ slots. (if read then place.new else None) ≡ at_slot R.kind slot slots)) }
    ensures reads { ReadsSide (λ slots. kind_cells R.kind (slice_index_or slots slot None)) reader.old reader.new result }
{
    if !is_marked::<R>(reader.store, reader.side, slot) {
        return Ok(false);
    }
    if reader.store.get(reader.bench, reader.side, slot, octets)? {
        R::read_into(octets.as_slice(), place);
        Ok(true)
    } else {
        Ok(false)
    }
}

/// The next slot from this one on that may have a record of the kind: the slots before it have none.
pub fn next_slot<R: Record>(store: &Store, slot: u16) -> u16
    ensures onward { slot ≤ result }
    ensures most { slot ≤ store.now.chains.cells → result ≤ store.now.chains.cells }
    ensures others { (image : List ℕ) (side : Side) (passed : ℕ) → StandsFor store.now image → slot ≤ passed → passed < result → listed.has_kind_mark R.kind (record_at store.now side passed image) ≡ false }
{
    if R::has_mark(RowRecord::MARK) {
        slot
    } else {
        store.end_of_common(slot)
    }
}

/// The next slot from this one on that may have a record of the kind and, where there is one, of the tag: the slots before it have none.
pub fn next_tagged<R: Record>(store: &Store, side: Side, tag: Option<Tag>, slot: u16) -> u16
    ensures onward { slot ≤ result }
    ensures most { slot ≤ store.now.chains.cells → result ≤ store.now.chains.cells }
    ensures others { (image : List ℕ) (passed : ℕ) → StandsFor store.now image → slot ≤ passed → passed < result → is_searched R.kind tag (record_at store.now side passed image) ≡ false }
    ensures here { (image : List ℕ) (octets : List ℕ) → StandsFor store.now image → record_at store.now side result image ≡ Some octets → IsTagged tag octets }
{
    match tag {
        Some(tag) => store.next_tagged(side, tag, slot),
        None => next_slot::<R>(store, slot),
    }
}

// Whether the first octet of a slot's record is a mark of the kind.
fn is_marked<R: Record>(store: &Store, side: Side, slot: u16) -> bool
    requires { slot < store.now.chains.cells }
    ensures { (image : List ℕ) → StandsFor store.now image → result ≡ listed.has_kind_mark R.kind (record_at store.now side slot image) }
{
    match store.first_octet(side, slot) {
        Some(octet) => R::has_mark(octet),
        None => false,
    }
}
