// GRANT.
ghost use Rattle.std.specs.Prelude.{◌≡◌, bit_or};
ghost use Rattle.scql_base.specs.declared.operation.Operation.TheVariants as operation;
ghost use Rattle.scql_model.specs.Granting.{privileges_granted};
ghost use Rattle.scql_model.specs.WellFormed.{HasForm};
ghost use Rattle.row_table.specs.Tables.{Ended, InTransaction};

use crate::pairs::{find_named, with_privileges};
use eeprom::Eeprom;
use privilege_table::find_pair;
use record_store::{Side, SideReader};
use record_table::{Stop, next_stamp};
use row_table::Tables;
use scql_base::{Actor, Grant, Name, Privileges};

/// Gives a user, or PUBLIC, privileges on an object of the actor's, on the working side: besides those that a grant gives already, or by a new one.
pub fn grant<B: Eeprom>(
    tables: &mut Tables,
    bench: &mut B,
    actor: Actor,
    privileges: Privileges,
    object: Name,
    grantee: Name,
) -> Result<(), Stop>
    requires open { InTransaction tables.old (B.chip bench.old) }
    ensures { Ended B.chip B.faults (λ _. HasForm (operation.Grant privileges object grantee)) (λ db. privileges_granted db actor privileges object grantee) bench.old bench.new tables.old tables.new result }
{
    let mut reader = SideReader {
        store: &tables.store,
        bench,
        side: Side::Working,
    };
    let pair = find_named(&mut reader, actor, object, grantee)?;
    let held = find_pair(&mut reader, pair.object.stamp, pair.grantee)?;
    if let Some(found) = held {
        let more = with_privileges(&found.value, both(found.value.privileges, privileges));
        return tables.change_in_place(bench, found.slot, &more);
    }
    let counter = next_stamp(&tables.store, bench)?;
    let new = Grant {
        stamp: counter.value.next,
        object: pair.object.stamp,
        grantee: pair.grantee,
        privileges,
    };
    tables.make(bench, &counter, &new)
}

// Privileges and others.
fn both(held: Privileges, more: Privileges) -> Privileges
    ensures { result ≡ bit_or held more }
{
    Privileges {
        bits: held.bits | more.bits,
    }
}
