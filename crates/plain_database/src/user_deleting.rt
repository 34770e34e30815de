// DELETE USER.
ghost use Rattle.std.specs.Prelude.{◌≡◌, ◌==◌};
ghost use Rattle.std.specs.List.{list_any};
ghost use Rattle.scql_model.specs.Users as users;
ghost use Rattle.plain_database.specs.Changes.{edits_decided};

use crate::PlainDatabase;
use crate::change::Change;
use crate::rights::is_owned_by;
use scql_base::{Actor, Copied, Name, Profile, StatusWord, User};

impl PlainDatabase {
    /// What DELETE USER changes.
    #[tactic(auto, unfolding(scql_model::specs::Users::user_deleted))]
    pub(crate) fn user_deleted(&self, actor: Actor, name: &Name) -> Result<Change, StatusWord>
        ensures { edits_decided self.now result ≡ users.user_deleted self.now actor name.now }
    {
        let Some(user) = self.user_named(name) else {
            return Err(StatusWord::NOT_FOUND);
        };
        if !is_owned_by(actor, user.owner) {
            return Err(StatusWord::SECURITY_NOT_SATISFIED);
        }
        if self.is_needed(user) {
            return Err(StatusWord::CONDITIONS_NOT_SATISFIED);
        }
        Ok(Change::RemoveUser { user: user.copy() })
    }

    // Whether a user is OWNER, or owns users or objects.
    fn is_needed(&self, user: &User) -> bool
        ensures { result ≡ users.is_needed self.now user.now }
    {
        user.profile == Profile::DbO || self.owns_users(user.stamp) || self.owns_objects(user.stamp)
    }

    // Whether the user of a stamp made users.
    fn owns_users(&self, owner: u32) -> bool
        ensures { result ≡ list_any (λ u. u.owner == owner) self.now.users }
    {
        self.users.iter().any(|user| user.owner == owner)
    }

    // Whether the user of a stamp made objects.
    fn owns_objects(&self, owner: u32) -> bool
        ensures { result ≡ list_any (λ o. o.owner == owner) self.now.objects }
    {
        self.objects.iter().any(|object| object.owner == owner)
    }
}
