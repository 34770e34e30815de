// The journal of an image, read where it is in range.
ghost use Rattle.std.specs.Prelude.{◌≡◌, ◌+◌, ◌*◌, ◌≤◌, ◌++◌, length, IfSome, OnOk};
ghost use Rattle.eeprom.specs.Chip.{RisesBy};
ghost use Rattle.eeprom.specs.Fault.{each_error};
ghost use Rattle.eeprom.specs.OnImage.{ReadsImage};
ghost use Rattle.eeprom.specs.StoreOf.{entries_at, journal_place};
ghost use Rattle.journal.specs.declared.reading.TheConstants.{MOST_AT_ONCE};
ghost use Rattle.journal.specs.Replay.{ReadsCount, ReadsEntries, ReadsJournal};

use crate::ReplayRefusal;
use crate::octets::{ENTRY_SIZE, Entries, are_entries, push_entries};
use eeprom::{Eeprom, EepromFault, ImageBench, journal_place};

/// How many entries are read at once at most, and how many octets these have.
const MOST_AT_ONCE: u16 = 128;

const LARGEST_PIECE: usize = ENTRY_SIZE * MOST_AT_ONCE as usize;

/// Makes these the entries of the journal, where it is in range.
pub fn read_journal<B: Eeprom>(
    bench: &mut ImageBench<'_, B>,
    entries: &mut Entries,
) -> Result<(), ReplayRefusal>
    ensures { ReadsJournal entries.new.items bench.old bench.new result }
{
    let count = read_count(bench)?;
    read_entries(bench, count, entries)
}

/// Reads how many entries the journal has, where they are at most as many as there are slots.
fn read_count<B: Eeprom>(bench: &mut ImageBench<'_, B>) -> Result<u16, ReplayRefusal>
    ensures { ReadsCount bench.old bench.new result }
{
    let mut number = [0; 2];
    bench.bench.read(journal_place(bench.cells), &mut number)?;
    let count = u16::from_be_bytes(number);
    if count > bench.cells {
        return Err(ReplayRefusal::BadJournal);
    }
    Ok(count)
}

/// Reads so many entries of the journal, where each is in range.
fn read_entries<B: Eeprom>(
    bench: &mut ImageBench<'_, B>,
    count: u16,
    entries: &mut Entries,
) -> Result<(), ReplayRefusal>
    requires few { count ≤ bench.old.cells }
    ensures { ReadsEntries count entries.new.items bench.old bench.new result }
{
    entries.clear();
    let mut left = count;
    while left > 0 {
        let few = left.min(MOST_AT_ONCE);
        read_more(bench, few, entries)?;
        left -= few;
    }
    if !are_entries(entries.as_slice(), bench.cells) {
        return Err(ReplayRefusal::BadJournal);
    }
    Ok(())
}

/// Reads so many entries more of the journal.
fn read_more<B: Eeprom>(
    bench: &mut ImageBench<'_, B>,
    count: u16,
    entries: &mut Entries,
) -> Result<(), EepromFault>
    requires few { count ≤ MOST_AT_ONCE }
    requires there { length entries.old.items + count ≤ bench.old.cells }
    ensures entries { OnOk result (IfSome (B.chip bench.old.bench.now).image (λ image. entries.new.items
        ≡ entries.old.items ++ entries_at image (journal_place bench.old.cells + 2 + 4 * length entries.old.items) count)) }
    ensures count { OnOk result (length entries.new.items ≡ length entries.old.items + count) }
    ensures reads { ReadsImage each_error (RisesBy (4 * count)) bench.old bench.new result }
{
    let place = journal_place(bench.cells) + 2 + ENTRY_SIZE * entries.len();
    let mut octets = [0; LARGEST_PIECE];
    let octets = &mut octets[..ENTRY_SIZE * count as usize];
    bench.bench.read(place, octets)?;
    push_entries(octets, count, entries);
    Ok(())
}
