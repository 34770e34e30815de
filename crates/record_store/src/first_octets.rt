// The first octet of each record, kept for the cell that its chain begins at.
ghost use Rattle.std.specs.Prelude.{◌≡◌, ◌≤◌, ◌<◌, length};
ghost use Rattle.record_store.specs.Opening.{with_octet};

use eeprom::Heap;

/// Keeps the first octet of a record for a cell. Of an empty slot there is none.
pub fn keep_octet(first_octets: &mut Vec<u8, Heap>, first: u16, octets: &[u8])
    requires inside { 1 ≤ length octets.now → first < length first_octets.old.items }
    ensures { first_octets.new.items ≡ with_octet first_octets.old.items first octets.now }
{
    if !octets.is_empty() {
        first_octets[first as usize] = octets[0];
    }
}
