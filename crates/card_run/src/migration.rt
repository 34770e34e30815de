// The run of a migration.
ghost use Rattle.std.specs.Prelude.{◌≡◌, codes, if◌then◌else◌};
ghost use Rattle.eeprom.specs.Frame.{HasRoom};
ghost use Rattle.eeprom.specs.StoreOf.{fewest_cells};
ghost use Rattle.scql_model.specs.Database.{Database};
ghost use Rattle.card.specs.Behind.{KeepsBehind, own_cells};
ghost use Rattle.card.specs.Opened.{IsOpenTo};
ghost use Rattle.line_run.specs.Causes.{Faults};
ghost use Rattle.card_run.specs.Ends.{EndsOpened};
ghost use Rattle.card_run.specs.Migrating.{KeepsOthers, LeavesLongRows, MigratesTo, StaysMigrating};

use crate::output::give;
use crate::words::Form;
use eeprom::Bench;
use migrate::migrate;
use program::Status;

/// Makes the rows of the card that is there longer, where they aren't so yet, and says which of both it found.
#[inline(never)]
pub(crate) fn run_migration<B: Bench>(bench: &mut B) -> Status
    requires room { HasRoom fewest_cells (B.chip bench.old) }
    ensures migrates { (db : Database) → IsOpenTo (B.chip bench.old) db
        → MigratesTo result (B.faults bench.old) (B.faults bench.new) db (B.chip bench.old).still.given (B.chip bench.new) }
    ensures moments { (db : Database) → IsOpenTo (B.chip bench.old) db → StaysMigrating db (B.chip bench.old) (B.chip bench.new) }
    ensures already { LeavesLongRows (B.chip bench.old) (B.chip bench.new) }
    ensures others { KeepsOthers (B.chip bench.old) (B.chip bench.new) }
    ensures behind { KeepsBehind own_cells (B.chip bench.old) (B.chip bench.new) }
    ensures ended { EndsOpened Form.Migrate result (record { eeprom = B.faults bench.old; outlet = B.sink_faults bench.old }) (record { eeprom = B.faults bench.new; outlet = B.sink_faults bench.new }) }
{
    let Ok(migrates) = migrate(bench) else {
        return Status::Eeprom;
    };
    match give(bench, text_of(migrates)) {
        Ok(()) => Status::Done,
        Err(_) => Status::WriteFault,
    }
}

fn text_of(migrates: bool) -> &'static [u8]
    ensures { result.now ≡ (if migrates then codes "migrated\n" else codes "already migrated\n") }
{
    if migrates {
        b"migrated\n"
    } else {
        b"already migrated\n"
    }
}
