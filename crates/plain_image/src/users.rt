// The rules of the users of a valid database.
ghost use Rattle.std.specs.Prelude.{◌≡◌, filter};
ghost use Rattle.std.specs.List.{list_all, list_any};
ghost use Rattle.scql_model.specs.Rules as model;
ghost use Rattle.plain_image.specs.Rules as rules;

use crate::searches::user_stamped;
use crate::stamps::do_rise;
use plain_database::PlainDatabase;
use scql_base::{Name, Profile, User};

/// Whether the users are those of a valid database.
pub(crate) fn are_right_users(database: &PlainDatabase) -> bool
    ensures { result ≡ rules.are_right_users database.now.users }
{
    let users = database.users();
    do_rise(users)
        && has_owner_alone(users)
        && have_different_names(users)
        && is_each_right(database, users)
}

/// Whether the user of a stamp makes users and objects.
pub(crate) fn is_made_by_maker(database: &PlainDatabase, stamp: u32) -> bool
    ensures { result ≡ model.is_made_by_maker database.now.users stamp }
{
    match user_stamped(database, stamp) {
        Some(user) => is_maker(user.profile),
        None => false,
    }
}

// Whether a user of this profile makes users and objects.
fn is_maker(profile: Profile) -> bool
    ensures { result ≡ model.is_maker profile }
{
    match profile {
        Profile::DbO | Profile::Dboo => true,
        Profile::Dbbu => false,
    }
}

// Whether OWNER is the one user of profile 01.
fn has_owner_alone(users: &[User]) -> bool
    ensures { result ≡ rules.is_owner_alone (filter model.is_db_o users.now) }
{
    let mut found = false;
    for user in users {
        if is_db_o(user) {
            if found || !is_owner(user) {
                return false;
            }
            found = true;
        }
    }
    found
}

// Whether a user has profile 01.
fn is_db_o(user: &User) -> bool
    ensures { result ≡ model.is_db_o user.now }
{
    match user.profile {
        Profile::DbO => true,
        Profile::Dboo | Profile::Dbbu => false,
    }
}

// Whether a user is OWNER as a card is made with it.
fn is_owner(user: &User) -> bool
    ensures { result ≡ rules.is_owner user.now }
{
    user.stamp == 1
        && user.name.octets() == Name::OWNER
        && is_db_o(user)
        && user.owner == 1
        && user.secret.as_slice().is_empty()
        && user.tries == User::ALL_TRIES
}

// Whether no two users have one name.
fn have_different_names(users: &[User]) -> bool
    ensures { result ≡ model.are_apart_by rules.are_namesakes users.now }
{
    let mut rest = users;
    while let [first, behind @ ..] = rest {
        if is_name_among(&first.name, behind) {
            return false;
        }
        rest = behind;
    }
    true
}

// Whether one of these users has a name.
fn is_name_among(name: &Name, users: &[User]) -> bool
    ensures { result ≡ list_any (model.is_named name.now) users.now }
{
    users.iter().any(|user| name.octets() == user.name.octets())
}

// Whether the rules of a single user hold of each.
fn is_each_right(database: &PlainDatabase, users: &[User]) -> bool
    ensures { result ≡ list_all (rules.is_right_user database.now.users) users.now }
{
    users.iter().all(|user| is_right_user(database, user))
}

// Whether a user isn't PUBLIC, may have been made by its owner, and without a secret has all tries.
fn is_right_user(database: &PlainDatabase, user: &User) -> bool
    ensures { result ≡ rules.is_right_user database.now.users user.now }
{
    Name::PUBLIC != user.name.octets() && has_maker(database, user) && has_all_tries(user)
}

// Whether a user's owner may have made it.
fn has_maker(database: &PlainDatabase, user: &User) -> bool
    ensures { result ≡ model.has_maker database.now.users user.now }
{
    match user.profile {
        Profile::DbO => true,
        Profile::Dboo => user.owner == 1,
        Profile::Dbbu => is_made_by_maker(database, user.owner),
    }
}

// Whether a user without a secret has all tries.
fn has_all_tries(user: &User) -> bool
    ensures { result ≡ model.has_all_tries user.now }
{
    !user.secret.as_slice().is_empty() || user.tries == User::ALL_TRIES
}
