// The version octet of an image, and the two octets that repeat the row limit. Places are in octets.
ghost use Rattle.std.specs.Prelude.{◌≡◌, ◌≤◌, true, IfSome};
ghost use Rattle.eeprom.specs.Calls.{WritesOnly};
ghost use Rattle.eeprom.specs.Chip.{RisesBy};
ghost use Rattle.eeprom.specs.Frame.{HasRoom};
ghost use Rattle.eeprom.specs.StoreOf.{fewest_cells};
ghost use Rattle.migrate.specs.Migration.{IsMigrated, IsBetweenVersions, Migrates, ReadsVersion, has_even_version};

use eeprom::{Eeprom, EepromFault, GATE_PLACE, MIGRATED_ROW_LIMIT, ROW_LIMIT};

/// Where the version is, whose octet is odd on a migrated card.
const VERSION: usize = 5;

const MIGRATED: [u8; 1] = [1];

/// Where a migrated card repeats its row limit, behind the gate.
const LIMIT: usize = GATE_PLACE + 1;

/// Makes 1,020 octets the row limit of a card, and answers whether it was 240 before. Where it is 1,020 already nothing is written.
/// Whenever power is lost the image has the slots from before, with the one row limit or the other.
/// The image begins with at least 1,154 octets, the size of the smallest card.
pub fn migrate<B: Eeprom>(bench: &mut B) -> Result<bool, EepromFault>
    requires room { HasRoom fewest_cells (B.chip bench.old) }
    ensures { Migrates B.chip B.faults B.octets_read bench.old bench.new result }
{
    let migrates = is_version_even(bench)?;
    if migrates {
        write_version(bench)?;
    }
    Ok(migrates)
}

/// Whether the version is even, which says that the card wasn't migrated.
fn is_version_even<B: Eeprom>(bench: &mut B) -> Result<bool, EepromFault>
    requires room { 6 ≤ (B.chip bench.old).still.size }
    ensures { ReadsVersion B.chip B.faults B.octets_read bench.old bench.new result }
{
    let mut version = [0; 1];
    bench.read(VERSION, &mut version)?;
    Ok(version[0] % 2 == 0)
}

/// Writes the row limit first, since it isn't looked at while the version is even.
fn write_version<B: Eeprom>(bench: &mut B) -> Result<(), EepromFault>
    requires room { 11 ≤ (B.chip bench.old).still.size }
    requires even { IfSome (B.chip bench.old).image (λ image. has_even_version image ≡ true) }
    ensures { WritesOnly B.chip B.faults B.octets_read IsMigrated IsBetweenVersions (RisesBy 3) bench.old bench.new result }
{
    bench.write(LIMIT, &MIGRATED_ROW_LIMIT.to_be_bytes())?;
    bench.write(VERSION, &MIGRATED)
}
