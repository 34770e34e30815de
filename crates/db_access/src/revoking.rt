// REVOKE.
ghost use Rattle.std.specs.Prelude.{◌≡◌, ◌==◌, None, Some, if◌then◌else◌};
ghost use Rattle.record_store.specs.declared.side.Side.TheVariants.{Working};
ghost use Rattle.scql_base.specs.declared.words.StatusWord.{StatusWord};
ghost use Rattle.scql_model.specs.Granting.{privileges_left, privileges_revoked};
ghost use Rattle.row_table.specs.Tables.{Ended, InTransaction};

use crate::pairs::{find_named, with_privileges};
use eeprom::Eeprom;
use privilege_table::find_pair;
use record_store::{Side, SideReader};
use record_table::{Stop, refused};
use row_table::Tables;
use scql_base::{Actor, Grant, Name, Privileges, StatusWord};

/// Takes privileges on an object of the actor's from a user, or from PUBLIC, on the working side. A grant without any goes.
pub fn revoke<B: Eeprom>(
    tables: &mut Tables,
    bench: &mut B,
    actor: Actor,
    privileges: Privileges,
    object: Name,
    grantee: Name,
) -> Result<(), Stop>
    requires open { InTransaction tables.old (B.chip bench.old) }
    ensures { Ended B.chip B.faults (λ _. Unit {0}) (λ db. privileges_revoked db actor privileges object grantee) bench.old bench.new tables.old tables.new result }
{
    let mut reader = SideReader {
        store: &tables.store,
        bench,
        side: Side::Working,
    };
    let pair = find_named(&mut reader, actor, object, grantee)?;
    let Some(found) = find_pair(&mut reader, pair.object.stamp, pair.grantee)? else {
        return refused(StatusWord::NOT_FOUND);
    };
    match left_of(&found.value, privileges) {
        Some(left) => {
            let less = with_privileges(&found.value, left);
            tables.change_in_place(bench, found.slot, &less)
        }
        None => {
            tables.take_out::<Grant>(found.slot);
            Ok(())
        }
    }
}

// What is left of a grant's privileges without others, where any are.
fn left_of(grant: &Grant, taken: Privileges) -> Option<Privileges>
    ensures { result ≡ (if privileges_left grant.now.privileges taken == 0 then None else Some (privileges_left grant.now.privileges taken)) }
{
    let held = grant.privileges;
    let bits = held.bits - (held.bits & taken.bits);
    if bits == 0 {
        None
    } else {
        Some(Privileges { bits })
    }
}
