// The names of users and objects of which the records of a dictionary speak.
ghost use Rattle.std.specs.Prelude.{◌≡◌};
ghost use Rattle.scql_base.specs.declared.name.TheConstants.Name.{LONGEST};
ghost use Rattle.scql_model.specs.Dictionaries as model;
ghost use Rattle.plain_database.specs.Within.{IsWithin};

use plain_database::ValidDatabase;
use scql_base::Name;

/// The name of a user, or nothing.
pub(crate) fn user_name<'a>(database: &ValidDatabase<'a>, stamp: u32) -> &'a [u8]
    ensures { IsWithin LONGEST result.now (model.user_name database.now stamp) }
{
    match database.user_stamped(stamp) {
        Some(user) => user.name.octets(),
        None => &[],
    }
}

/// The name of an object, or nothing.
pub(crate) fn object_name<'a>(database: &ValidDatabase<'a>, stamp: u32) -> &'a [u8]
    ensures { IsWithin LONGEST result.now (model.object_name database.now stamp) }
{
    match database.object_stamped(stamp) {
        Some(object) => object.name.octets(),
        None => &[],
    }
}

/// The name of the user to whom a grant is given, or PUBLIC.
pub(crate) fn grantee_name<'a>(database: &ValidDatabase<'a>, stamp: u32) -> &'a [u8]
    ensures { IsWithin LONGEST result.now (model.grantee_name database.now stamp) }
{
    if stamp == 0 {
        Name::PUBLIC
    } else {
        user_name(database, stamp)
    }
}

/// The stamp of an object's owner, or 0.
pub(crate) fn object_owner(database: &ValidDatabase<'_>, stamp: u32) -> u32
    ensures { result ≡ model.object_owner database.now stamp }
{
    match database.object_stamped(stamp) {
        Some(object) => object.owner,
        None => 0,
    }
}
