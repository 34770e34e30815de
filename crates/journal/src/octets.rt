// The entries of a journal, each in four octets.
ghost use Rattle.std.specs.Prelude.{◌≡◌, ◌+◌, ◌*◌, ◌≤◌, [], ◌++◌, true, false, length, IfSome, IfNone, MatchOption};
ghost use Rattle.std.specs.List.{list_all};
ghost use Rattle.eeprom.specs.StoreOf.{most_cells, number_at, entries_at};
ghost use Rattle.eeprom.specs.StoreOf as image;

use arrayvec::ArrayVec;
use eeprom::{Entry, MOST_CELLS, NO_CELL};

/// How many entries the largest journal has, and how many octets each of them.
pub const MOST_ENTRIES: usize = MOST_CELLS as usize;

pub const ENTRY_SIZE: usize = 4;

pub type Entries = ArrayVec<Entry, MOST_ENTRIES>;

/// Pushes the so many entries of octets.
pub fn push_entries(octets: &[u8], count: u16, entries: &mut Entries)
    requires size { length octets.now ≡ 4 * count }
    requires free { length entries.old.items + count ≤ most_cells }
    ensures entries { entries.new.items ≡ entries.old.items ++ entries_at octets.now 0 count }
    ensures count { length entries.new.items ≡ length entries.old.items + count }
{
    for index in 0..count as usize {
        entries.push(entry_at(octets, ENTRY_SIZE * index));
    }
}

/// Whether each of these entries is in range.
pub fn are_entries(entries: &[Entry], cells: u16) -> bool
    requires few { cells ≤ most_cells }
    ensures { result ≡ list_all (image.is_entry cells) entries.now }
{
    entries.iter().all(|entry| is_entry(*entry, cells))
}

/// The entry in the four octets at a place.
fn entry_at(octets: &[u8], place: usize) -> Entry
    requires within { place + 4 ≤ length octets.now }
    ensures slot { result.slot ≡ number_at octets.now place }
    ensures first { result.first ≡ number_at octets.now (place + 2) }
{
    Entry {
        slot: u16::from_be_bytes([octets[place], octets[place + 1]]),
        first: u16::from_be_bytes([octets[place + 2], octets[place + 3]]),
    }
}

/// Whether an entry names a slot, and a cell or none.
fn is_entry(entry: Entry, cells: u16) -> bool
    requires few { cells ≤ most_cells }
    ensures { result ≡ image.is_entry cells entry }
{
    entry.slot < cells && (entry.first < 2 * cells || entry.first == NO_CELL)
}
