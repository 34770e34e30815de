// The journal of a commit, written in a few runs.
ghost use Rattle.std.specs.Prelude.{◌+◌, ◌*◌, length};
ghost use Rattle.eeprom.specs.Chip.{RisesBy};
ghost use Rattle.eeprom.specs.OnImage.{WritesImage};
ghost use Rattle.eeprom.specs.StoreOf.{front_size, journal_place};
ghost use Rattle.journal.specs.Journal.{AreEntriesOf};
ghost use Rattle.journal.specs.Redo.{HasJournal};
ghost use Rattle.journal.specs.Run.{SameOutside};

use crate::run::Run;
use eeprom::{Eeprom, EepromFault, Entry, ImageBench};

/// Writes the journal of these entries: in one write, where they are few.
pub fn write_journal<B: Eeprom>(
    bench: &mut ImageBench<'_, B>,
    entries: &[Entry],
) -> Result<(), EepromFault>
    requires entries { AreEntriesOf bench.old.cells entries.now }
    ensures { WritesImage (λ _ now. HasJournal bench.old.cells entries.now now) (SameOutside (journal_place bench.old.cells) (front_size bench.old.cells)) (RisesBy (2 + 4 * length entries.now)) bench.old bench.new result }
{
    let mut run = Run::new(bench.cells);
    run.push(entries.len() as u16);
    let mut index = bench.cells + 1;
    for entry in entries {
        run.go_to(bench.bench, index)?;
        run.push(entry.slot);
        run.push(entry.first);
        index += 2;
    }
    run.write(bench.bench)
}
