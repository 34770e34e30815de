// Searches among the users and the objects: by a name through all, by a stamp by halves.
ghost use Rattle.std.specs.Prelude.{◌≡◌, option_copied};
ghost use Rattle.scql_model.specs.Objects as objects;
ghost use Rattle.scql_model.specs.Rights as rights;
ghost use Rattle.scql_model.specs.Rules as rules;

use crate::{PlainDatabase, Rising, ValidDatabase};
use scql_base::{Actor, Name, Object, User};

impl PlainDatabase {
    /// The user of a name.
    pub fn user_named(&self, name: &Name) -> Option<&User>
        ensures { option_copied result ≡ rules.user_named self.now.users name.now }
    {
        self.users
            .iter()
            .find(|user| name.octets() == user.name.octets())
    }

    /// The object of a name, where it appears to an actor.
    pub fn seen_named(&self, actor: Actor, name: &Name) -> Option<&Object>
        ensures { option_copied result ≡ rights.seen_named self.now actor name.now }
    {
        self.objects.iter().find(|object| {
            name.octets() == object.name.octets() && self.appears(actor, object)
        })
    }
}

impl<'a> ValidDatabase<'a> {
    /// The user of a stamp.
    pub fn user_stamped(&self, stamp: u32) -> Option<&'a User>
        ensures { option_copied result ≡ rules.user_stamped self.now.users stamp }
    {
        Rising {
            records: self.database().users(),
        }
        .find(stamp)
    }

    /// The object of a stamp.
    pub fn object_stamped(&self, stamp: u32) -> Option<&'a Object>
        ensures { option_copied result ≡ objects.object_stamped self.now.objects stamp }
    {
        Rising {
            records: self.database().objects(),
        }
        .find(stamp)
    }

    /// The object of a stamp, where it appears to an actor.
    pub fn seen_stamped(&self, actor: Actor, stamp: u32) -> Option<&'a Object>
        ensures { option_copied result ≡ rights.seen_stamped self.now actor stamp }
    {
        let database = self.database();
        let object = self.object_stamped(stamp)?;
        if database.appears(actor, object) {
            Some(object)
        } else {
            None
        }
    }
}
