// CREATE USER.
ghost use Rattle.std.specs.Prelude.{◌≡◌};
ghost use Rattle.std.specs.List.{list_any};
ghost use Rattle.scql_model.specs.Creating as creating;
ghost use Rattle.scql_model.specs.Rules as rules;
ghost use Rattle.plain_database.specs.Changes.{edits_decided};

use crate::PlainDatabase;
use crate::change::Change;
use crate::rights::actor_stamp;
use scql_base::{Actor, Copied, Name, Octets, Profile, StatusWord, User};

impl PlainDatabase {
    /// What CREATE USER changes.
    pub(crate) fn user_added(
        &self,
        actor: Actor,
        name: &Name,
        profile: Profile,
        secret: &Octets<8>,
    ) -> Result<Change, StatusWord>
        ensures { edits_decided self.now result ≡ creating.user_added self.now actor name.now profile secret.now }
    {
        if !may_create(actor, profile) {
            return Err(StatusWord::SECURITY_NOT_SATISFIED);
        }
        if self.has_user(name) || name.octets() == Name::PUBLIC {
            return Err(StatusWord::ALREADY_EXISTS);
        }
        let user = User {
            stamp: self.next(),
            name: name.copy(),
            profile,
            owner: actor_stamp(actor),
            secret: secret.copy(),
            tries: User::ALL_TRIES,
        };
        Ok(Change::AddUser { user })
    }

    // Whether a user has a name.
    fn has_user(&self, name: &Name) -> bool
        ensures { result ≡ list_any (rules.is_named name.now) self.now.users }
    {
        self.users
            .iter()
            .any(|user| name.octets() == user.name.octets())
    }
}

// Whether an actor makes users of a profile.
fn may_create(actor: Actor, profile: Profile) -> bool
    ensures { result ≡ creating.may_create actor profile }
{
    match actor {
        Actor::Public => false,
        Actor::User {
            profile: Profile::DbO,
            ..
        } => true,
        Actor::User {
            profile: Profile::Dboo,
            ..
        } => matches!(profile, Profile::Dbbu),
        Actor::User {
            profile: Profile::Dbbu,
            ..
        } => false,
    }
}
