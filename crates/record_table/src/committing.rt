// A record of a database changed in its place, in a transaction of its own.
ghost use Rattle.std.specs.Prelude.{◌<◌};
ghost use Rattle.record_table.specs.AtRest.{CommitsInPlace, IsIdleOver};

use crate::{Editable, Stop, change_in_place, refused};
use eeprom::Eeprom;
use record_store::Store;

/// Commits a record in the place of the one of its stamp, which the slot has. Where there is no room for it nothing is written.
pub fn commit_in_place<R: Editable, B: Eeprom>(
    store: &mut Store,
    bench: &mut B,
    slot: u16,
    value: &R,
) -> Result<(), Stop>
    requires rests { IsIdleOver store.old (B.chip bench.old) }
    requires spelled { R.can_encode value.now }
    requires there { slot < store.old.chains.cells }
    ensures { CommitsInPlace B.chip B.faults R.kind R.any value.now slot bench.old bench.new store.old store.new result }
{
    store.begin();
    match change_in_place(store, bench, slot, value) {
        Ok(()) => {
            store.commit(bench)?;
            Ok(())
        }
        Err(Stop::Refused { word }) => {
            store.rollback();
            refused(word)
        }
        Err(Stop::Fault) => Err(Stop::Fault),
    }
}
