// What an open gate asks for: the entries of the journal are made those of the directory, and then the gate is closed.
ghost use Rattle.std.specs.Prelude.{◌+◌, ◌*◌, length};
ghost use Rattle.eeprom.specs.Chip.{RisesBy};
ghost use Rattle.eeprom.specs.OnImage.{WritesImage};
ghost use Rattle.journal.specs.Journal.{AreEntriesOf, IsReplayed, KeepsDirectory};
ghost use Rattle.journal.specs.Redo.{HasEntries, IsRewritten, MayRedo};

use crate::run::Run;
use eeprom::{Eeprom, EepromFault, Entry, GATE_PLACE, ImageBench};

/// The octet of a closed gate.
const CLOSED: [u8; 1] = [0];

/// Makes the entries of the journal those of the directory, and closes the gate. They are the same however often it is begun.
pub fn redo<B: Eeprom>(bench: &mut ImageBench<'_, B>, entries: &[Entry]) -> Result<(), EepromFault>
    requires { MayRedo bench.old.cells entries.now (B.chip bench.old.bench.now).image }
    ensures { WritesImage (IsReplayed bench.old.cells) (KeepsDirectory bench.old.cells) (RisesBy (1 + 2 * length entries.now)) bench.old bench.new result }
{
    write_entries(bench, entries)?;
    bench.bench.write(GATE_PLACE, &CLOSED)
}

/// Writes the entries into the directory, those of neighbouring slots together.
fn write_entries<B: Eeprom>(
    bench: &mut ImageBench<'_, B>,
    entries: &[Entry],
) -> Result<(), EepromFault>
    requires entries { AreEntriesOf bench.old.cells entries.now }
    ensures { WritesImage (HasEntries bench.old.cells entries.now) (IsRewritten bench.old.cells entries.now) (RisesBy (2 * length entries.now)) bench.old bench.new result }
{
    let mut run = Run::new(0);
    for entry in entries {
        run.go_to(bench.bench, entry.slot)?;
        run.push(entry.first);
    }
    run.write(bench.bench)
}
