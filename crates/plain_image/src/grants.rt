// The rules of the grants of a valid database.
ghost use Rattle.std.specs.Prelude.{◌≡◌, ◌==◌};
ghost use Rattle.std.specs.List.{list_all, list_any};
ghost use Rattle.scql_base.specs.declared.records.User as user;
ghost use Rattle.scql_base.specs.declared.records.Object as object;
ghost use Rattle.scql_model.specs.Rules as model;
ghost use Rattle.plain_image.specs.Rules as rules;

use crate::stamps::do_rise;
use plain_database::PlainDatabase;
use scql_base::{Grant, Object, User};

/// Whether the grants are those of a valid database.
pub(crate) fn are_right_grants(database: &PlainDatabase) -> bool
    ensures { result ≡ rules.are_right_grants database.now.users database.now.objects database.now.grants }
{
    let grants = database.grants();
    do_rise(grants) && have_different_pairs(grants) && is_each_right(database, grants)
}

// Whether no two grants are of one object to one grantee.
fn have_different_pairs(grants: &[Grant]) -> bool
    ensures { result ≡ model.are_apart_by model.is_of_pair grants.now }
{
    let mut rest = grants;
    while let [first, behind @ ..] = rest {
        if is_pair_among(first, behind) {
            return false;
        }
        rest = behind;
    }
    true
}

// Whether one of these grants is of the same object to the same grantee.
fn is_pair_among(grant: &Grant, grants: &[Grant]) -> bool
    ensures { result ≡ list_any (model.is_of_pair grant.now) grants.now }
{
    grants.iter().any(|other| grant.object == other.object && grant.grantee == other.grantee)
}

// Whether the parties of each grant are there.
fn is_each_right(database: &PlainDatabase, grants: &[Grant]) -> bool
    ensures { result ≡ list_all (model.has_object_and_grantee database.now.users database.now.objects) grants.now }
{
    grants
        .iter()
        .all(|grant| has_object_and_grantee(database, grant))
}

// Whether what a grant allows is there, and who is allowed it.
fn has_object_and_grantee(database: &PlainDatabase, grant: &Grant) -> bool
    ensures { result ≡ model.has_object_and_grantee database.now.users database.now.objects grant.now }
{
    is_object_there(database.objects(), grant.object)
        && (grant.grantee == 0 || is_user_there(database.users(), grant.grantee))
}

// Whether there is an object of a stamp.
fn is_object_there(objects: &[Object], stamp: u32) -> bool
    ensures { result ≡ list_any (λ (o : object.Object). o.stamp == stamp) objects.now }
{
    objects.iter().any(|object| object.stamp == stamp)
}

// Whether there is a user of a stamp.
fn is_user_there(users: &[User], stamp: u32) -> bool
    ensures { result ≡ list_any (λ (u : user.User). u.stamp == stamp) users.now }
{
    users.iter().any(|user| user.stamp == stamp)
}
