// Who may do what: owners of objects, the privileges that grants give, and which objects appear to whom.
ghost use Rattle.std.specs.Prelude.{◌≡◌};
ghost use Rattle.std.specs.List.{list_any};
ghost use Rattle.scql_model.specs.Creating as creating;
ghost use Rattle.scql_model.specs.Rights as rights;
ghost use Rattle.scql_model.specs.Rules as rules;
ghost use Rattle.plain_database.specs.Privileged.{bit_of};

use crate::{PlainDatabase, Privilege};
use scql_base::{Actor, Grant, Object, Profile};

impl PlainDatabase {
    /// Whether an actor holds a privilege on an object: as its owner, or by a grant.
    #[tactic(auto, unfolding(scql_model::specs::Rights::holds))]
    pub fn holds(&self, actor: Actor, object: &Object, privilege: Privilege) -> bool
        ensures { result ≡ rights.holds self.now actor object.now (bit_of privilege) }
    {
        is_owned_by(actor, object.owner) || self.is_granted(actor, object, privilege)
    }

    /// Whether an object appears to an actor: who owns it, or holds some privilege on it.
    #[tactic(auto, unfolding(scql_model::specs::Rights::appears))]
    pub fn appears(&self, actor: Actor, object: &Object) -> bool
        ensures { result ≡ rights.appears self.now actor object.now }
    {
        is_owned_by(actor, object.owner) || self.has_grant(actor, object)
    }

    // Whether some grant gives an actor some privilege on an object.
    fn has_grant(&self, actor: Actor, object: &Object) -> bool
        ensures { result ≡ list_any (λ grant. list_any (λ bit. rights.gives actor object.now bit grant) rights.all_privileges) self.now.grants }
    {
        self.grants
            .iter()
            .any(|grant| gives_some(grant, actor, object))
    }

    // Whether some grant gives an actor a privilege on an object.
    fn is_granted(&self, actor: Actor, object: &Object, privilege: Privilege) -> bool
        ensures { result ≡ list_any (rights.gives actor object.now (bit_of privilege)) self.now.grants }
    {
        self.grants
            .iter()
            .any(|grant| gives(grant, actor, object, privilege))
    }
}

/// The stamp of the user who acts, and 0 for PUBLIC.
pub(crate) fn actor_stamp(actor: Actor) -> u32
    ensures { result ≡ creating.actor_stamp actor }
{
    match actor {
        Actor::Public => 0,
        Actor::User { stamp, .. } => stamp,
    }
}

/// Whether the owner of this stamp is who acts. PUBLIC owns nothing.
pub(crate) fn is_owned_by(actor: Actor, owner: u32) -> bool
    ensures { result ≡ creating.is_owned_by actor owner }
{
    match actor {
        Actor::Public => false,
        Actor::User { stamp, .. } => owner == stamp,
    }
}

/// Whether users of a profile make users and objects.
pub(crate) fn is_maker(profile: Profile) -> bool
    ensures { result ≡ rules.is_maker profile }
{
    match profile {
        Profile::DbO | Profile::Dboo => true,
        Profile::Dbbu => false,
    }
}

// Whether a grant gives an actor some privilege on an object.
fn gives_some(grant: &Grant, actor: Actor, object: &Object) -> bool
    ensures { result ≡ list_any (λ bit. rights.gives actor object.now bit grant.now) rights.all_privileges }
{
    gives(grant, actor, object, Privilege::Select)
        || gives(grant, actor, object, Privilege::Insert)
        || gives(grant, actor, object, Privilege::Update)
        || gives(grant, actor, object, Privilege::Delete)
}

// Whether a grant gives an actor a privilege on an object.
fn gives(grant: &Grant, actor: Actor, object: &Object, privilege: Privilege) -> bool
    ensures { result ≡ rights.gives actor object.now (bit_of privilege) grant.now }
{
    grant.object == object.stamp
        && (grant.grantee == 0 || grant.grantee == actor_stamp(actor))
        && privilege.is_among(grant.privileges)
}
