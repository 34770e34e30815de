// The pair of which GRANT and REVOKE speak: an object that the actor owns, and a grantee.
ghost use Rattle.std.specs.Prelude.{◌≡◌};
ghost use Rattle.scql_base.specs.Words.{not_found};
ghost use Rattle.scql_model.specs.Defining.{owned_by};
ghost use Rattle.scql_model.specs.Granting.{grantee_named};
ghost use Rattle.scql_model.specs.Refusals.{or_refused};
ghost use Rattle.scql_model.specs.Rights.{seen_named};
ghost use Rattle.record_table.specs.Asking.{Asks};
ghost use Rattle.record_table.specs.Making.{is_stop_fault};
ghost use Rattle.db_access.specs.Asked.{AnswersNamed};
ghost use Rattle.db_access.specs.Pairs.{pair_named};

use eeprom::Eeprom;
use privilege_table::{find_seen, is_owned_by};
use record_store::SideReader;
use record_table::{Stop, refused};
use scql_base::{Actor, Grant, Name, Object, Privileges, StatusWord};
use user_table::find_name;

/// An object and a grantee.
#[derive(Drop)]
pub(crate) struct Pair {
    pub object: Object,
    /// The stamp of a user, or 0 for PUBLIC.
    pub grantee: u32,
}

/// Finds the pair of an object's name and a grantee's, or the first refusal.
pub(crate) fn find_named<B: Eeprom>(
    reader: &mut SideReader<'_, '_, B>,
    actor: Actor,
    object: Name,
    grantee: Name,
) -> Result<Pair, Stop>
    ensures { Asks is_stop_fault (λ db. AnswersNamed (λ pair. (pair.object, pair.grantee)) (pair_named db actor object grantee)) reader.old reader.new result }
{
    let object = find_owned(reader, actor, object)?;
    let grantee = find_grantee(reader, grantee)?;
    Ok(Pair { object, grantee })
}

// Finds the object of a name that appears to an actor, who owns it, or the first refusal.
fn find_owned<B: Eeprom>(
    reader: &mut SideReader<'_, '_, B>,
    actor: Actor,
    name: Name,
) -> Result<Object, Stop>
    ensures { Asks is_stop_fault (λ db. AnswersNamed (λ object. object) (owned_by actor (seen_named db actor name))) reader.old reader.new result }
{
    let Some(found) = find_seen(reader, actor, name)? else {
        return refused(StatusWord::NOT_FOUND);
    };
    if !is_owned_by(actor, found.value.owner) {
        return refused(StatusWord::SECURITY_NOT_SATISFIED);
    }
    Ok(found.value)
}

// Finds the grantee of a name: the stamp of a user, or 0 for PUBLIC.
fn find_grantee<B: Eeprom>(reader: &mut SideReader<'_, '_, B>, name: Name) -> Result<u32, Stop>
    ensures { Asks is_stop_fault (λ db. AnswersNamed (λ grantee. grantee) (or_refused (grantee_named db name) not_found)) reader.old reader.new result }
{
    if name.octets() == Name::PUBLIC {
        return Ok(0);
    }
    match find_name(reader, name)? {
        Some(found) => Ok(found.value.stamp),
        None => refused(StatusWord::NOT_FOUND),
    }
}

/// The grant, of other privileges.
pub(crate) fn with_privileges(grant: &Grant, privileges: Privileges) -> Grant
    ensures { result ≡ record grant.now { privileges = privileges } }
{
    Grant {
        stamp: grant.stamp,
        object: grant.object,
        grantee: grant.grantee,
        privileges,
    }
}
