// Searches through all records, as long as nothing is known of the order of their stamps.
ghost use Rattle.std.specs.Prelude.{◌≡◌, option_copied};
ghost use Rattle.scql_model.specs.Rules as model;

use plain_database::PlainDatabase;
use scql_base::{Object, User};

/// The first user of a stamp.
pub(crate) fn user_stamped(database: &PlainDatabase, stamp: u32) -> Option<&User>
    ensures { option_copied result ≡ model.user_stamped database.now.users stamp }
{
    database.users().iter().find(|user| user.stamp == stamp)
}

/// The first object of a stamp.
pub(crate) fn object_stamped(database: &PlainDatabase, stamp: u32) -> Option<&Object>
    ensures { option_copied result ≡ model.object_stamped database.now.objects stamp }
{
    database
        .objects()
        .iter()
        .find(|object| object.stamp == stamp)
}
