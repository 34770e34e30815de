// GRANT and REVOKE.
ghost use Rattle.std.specs.Prelude.{◌≡◌, ◌==◌, Some, None, bit_or, if◌then◌else◌, option_copied};
ghost use Rattle.scql_model.specs.Granting as granting;
ghost use Rattle.plain_database.specs.Changes.{edits_decided};

use crate::PlainDatabase;
use crate::change::Change;
use crate::rights::is_owned_by;
use scql_base::{Actor, Grant, Name, Object, Privileges, StatusWord};

impl PlainDatabase {
    /// What GRANT changes: privileges are added to those of the grantee's grant, or are a new grant.
    #[tactic(auto, unfolding(scql_model::specs::Granting::privileges_granted))]
    pub(crate) fn privileges_granted(
        &self,
        actor: Actor,
        privileges: Privileges,
        name: &Name,
        grantee: &Name,
    ) -> Result<Change, StatusWord>
        ensures { edits_decided self.now result ≡ granting.privileges_granted self.now actor privileges name.now grantee.now }
    {
        let Some(object) = self.seen_named(actor, name) else {
            return Err(StatusWord::NOT_FOUND);
        };
        if !is_owned_by(actor, object.owner) {
            return Err(StatusWord::SECURITY_NOT_SATISFIED);
        }
        let Some(grantee) = self.grantee_named(grantee) else {
            return Err(StatusWord::NOT_FOUND);
        };
        match self.grant_to(object, grantee) {
            Some(held) => {
                let more = both(held.privileges, privileges);
                let grant = with_privileges(held, more);
                Ok(Change::ChangeGrant { grant })
            }
            None => {
                let grant = Grant {
                    stamp: self.next(),
                    object: object.stamp,
                    grantee,
                    privileges,
                };
                Ok(Change::AddGrant { grant })
            }
        }
    }

    /// What REVOKE changes: privileges are taken from the grantee's grant, which goes where none is left.
    #[tactic(auto, unfolding(scql_model::specs::Granting::privileges_revoked))]
    pub(crate) fn privileges_revoked(
        &self,
        actor: Actor,
        privileges: Privileges,
        name: &Name,
        grantee: &Name,
    ) -> Result<Change, StatusWord>
        ensures { edits_decided self.now result ≡ granting.privileges_revoked self.now actor privileges name.now grantee.now }
    {
        let Some(object) = self.seen_named(actor, name) else {
            return Err(StatusWord::NOT_FOUND);
        };
        if !is_owned_by(actor, object.owner) {
            return Err(StatusWord::SECURITY_NOT_SATISFIED);
        }
        let Some(grantee) = self.grantee_named(grantee) else {
            return Err(StatusWord::NOT_FOUND);
        };
        let Some(held) = self.grant_to(object, grantee) else {
            return Err(StatusWord::NOT_FOUND);
        };
        match left_of(held.privileges, privileges) {
            Some(left) => {
                let grant = with_privileges(held, left);
                Ok(Change::ChangeGrant { grant })
            }
            None => Ok(Change::RemoveGrant { grant: *held }),
        }
    }

    // The stamp of the user of a name, or 0 for PUBLIC.
    fn grantee_named(&self, name: &Name) -> Option<u32>
        ensures { result ≡ granting.grantee_named self.now name.now }
    {
        if name.octets() == Name::PUBLIC {
            return Some(0);
        }
        match self.user_named(name) {
            Some(user) => Some(user.stamp),
            None => None,
        }
    }

    // The grant of an object to a grantee.
    fn grant_to(&self, object: &Object, grantee: u32) -> Option<&Grant>
        ensures { option_copied result ≡ granting.grant_to self.now object.now grantee }
    {
        self.grants.iter().find(|grant| grant.object == object.stamp && grant.grantee == grantee)
    }
}

// Privileges and others.
fn both(held: Privileges, more: Privileges) -> Privileges
    ensures { result ≡ bit_or held more }
{
    Privileges {
        bits: held.bits | more.bits,
    }
}

// What is left of privileges without others, where any are.
fn left_of(held: Privileges, taken: Privileges) -> Option<Privileges>
    ensures { result ≡ (if granting.privileges_left held taken == 0 then None else Some (granting.privileges_left held taken)) }
{
    let bits = held.bits - (held.bits & taken.bits);
    if bits == 0 {
        None
    } else {
        Some(Privileges { bits })
    }
}

// The grant, of other privileges.
fn with_privileges(grant: &Grant, privileges: Privileges) -> Grant
    ensures { result ≡ record grant.now { privileges = privileges } }
{
    Grant {
        privileges,
        ..*grant
    }
}
