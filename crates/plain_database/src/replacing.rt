// Records that take the place of those that have their stamps.
ghost use Rattle.std.specs.Prelude.{◌≡◌, vec_capacity};
ghost use Rattle.eeprom.specs.Slots.{Rises, replaced};
ghost use Rattle.scql_model.specs.Database.{IsValid};
ghost use Rattle.plain_database.specs.Changed.{SetsTries};

use crate::record::Record;
use crate::{PlainDatabase, Rising};
use eeprom::Heap;
use scql_base::Copied;

impl PlainDatabase {
    /// Gives the user of a stamp so many tries.
    pub fn set_tries(&mut self, stamp: u32, tries: u8)
        requires valid { IsValid self.old }
        ensures { SetsTries self.old self.new stamp tries }
    {
        match self.as_valid().user_stamped(stamp) {
            Some(user) => {
                let mut user = user.copy();
                user.tries = tries;
                replace(&mut self.users, user);
            }
            None => {}
        }
    }
}

/// Puts a record in the place of the one that has its stamp.
pub(crate) fn replace<R: Record>(records: &mut Vec<R, Heap>, entry: R)
    requires rises { Rises R.stamp_of records.old.items }
    ensures items { records.new.items ≡ replaced R.stamp_of entry records.old.items }
    ensures capacity { vec_capacity records.new ≡ vec_capacity records.old }
{
    let rising = Rising { records };
    match rising.place_of(entry.stamp()) {
        Some(at) => records[at] = entry,
        None => {}
    }
}
