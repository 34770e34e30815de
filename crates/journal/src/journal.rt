// The journal: commits of entries, and replays after a power loss.
ghost use Rattle.std.specs.Prelude.{◌+◌, ◌*◌, ◌≤◌, length};
ghost use Rattle.eeprom.specs.Chip.{RisesBy};
ghost use Rattle.eeprom.specs.OnImage.{WritesImage};
ghost use Rattle.journal.specs.Journal.{TakesEntries, IsBetweenDirectories};
ghost use Rattle.journal.specs.Redo.{MayCommit};
ghost use Rattle.journal.specs.Replay.{ReadsGate, Replays};

use crate::ReplayRefusal;
use crate::octets::Entries;
use crate::reading::read_journal;
use crate::redo::redo;
use crate::writing::write_journal;
use eeprom::{Eeprom, EepromFault, Entry, GATE_PLACE, ImageBench};

/// The octet of an open gate.
const OPEN: [u8; 1] = [1];

/// The redo journal of an image in format 2, with its gate and its directory.
pub struct Journal;

impl Journal {
    /// Makes the entries those of the directory, one after another, all of them or none whenever power is lost.
    /// The octets written are 4, and 6 for each entry.
    pub fn commit<B: Eeprom>(
        bench: &mut ImageBench<'_, B>,
        entries: &[Entry],
    ) -> Result<(), EepromFault>
        requires { MayCommit bench.old.cells entries.now (B.chip bench.old.bench.now).image }
        ensures { WritesImage (TakesEntries bench.old.cells entries.now) (IsBetweenDirectories bench.old.cells entries.now) (RisesBy (4 + 6 * length entries.now)) bench.old bench.new result }
    {
        write_journal(bench, entries)?;
        bench.bench.write(GATE_PLACE, &OPEN)?;
        redo(bench, entries)
    }

    /// Makes the entries of the journal those of the directory, where the gate is open, and closes the gate.
    /// Where it is closed nothing is written. It isn't inlined, so that the entries have their place only where a journal is replayed.
    #[inline(never)]
    pub fn replay<B: Eeprom>(bench: &mut ImageBench<'_, B>) -> Result<(), ReplayRefusal>
        ensures { Replays bench.old bench.new result }
    {
        if !is_open(bench.bench)? {
            return Ok(());
        }
        let mut entries = Entries::new();
        read_journal(bench, &mut entries)?;
        redo(bench, entries.as_slice())?;
        Ok(())
    }
}

/// Whether the gate is open.
fn is_open<B: Eeprom>(bench: &mut B) -> Result<bool, EepromFault>
    requires room { 9 ≤ (B.chip bench.old).still.size }
    ensures { ReadsGate B.chip B.faults B.octets_read bench.old bench.new result }
{
    let mut gate = [0; 1];
    bench.read(GATE_PLACE, &mut gate)?;
    Ok(gate[0] % 2 == 1)
}
