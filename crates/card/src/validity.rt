// The rules of a valid database, tested on its records.
ghost use Rattle.std.specs.Prelude.{◌≡◌, ◌≤◌, ◌==◌, ◌&&◌, IfSome, None, is_some, filter, length, vec_capacity};
ghost use Rattle.std.specs.List.{list_all, list_any};
ghost use Rattle.scql_base.specs.declared.records.User as base;
ghost use Rattle.scql_base.specs.declared.records.Object as declared;
ghost use Rattle.scql_model.specs.Objects as objects;
ghost use Rattle.scql_model.specs.Rules as rules;
ghost use Rattle.card.specs.Apart as apart;
ghost use Rattle.card.specs.Validity as validity;
ghost use Rattle.card.specs.declared.apart.Label.TheVariants.{UserName, ObjectName, GrantPair};
ghost use Rattle.card.specs.KeptRecords.{as_row, users_in, objects_in, grants_in, rows_in};

use crate::apart::Label;
use crate::founded::is_founded;
use crate::sorted_records::SortedRecords;
use crate::spelled_record::SpelledRecord;
use eeprom::Heap;
use scql_base::{Grant, Name, Object, ObjectKind, Profile, RowRecord, User};

/// Whether records are those of a valid database, where each is within its limits. They stand in rising order of their stamps,
/// and there is room for as many numbers.
#[tactic(auto, using(crate::proofs::Grouped::grouped))]
pub(crate) fn are_valid(next: u32, records: &SortedRecords, numbers: &mut Vec<u64, Heap>) -> bool
    requires room { length records.now.items ≤ vec_capacity numbers.old }
    ensures { result ≡ validity.is_valid_database next (users_in records.now.items) (objects_in records.now.items) (grants_in records.now.items) (rows_in records.now.items) }
{
    next >= 2
        && has_owner_alone(records)
        && is_each_right(next, records)
        && is_nothing_shared(records, numbers)
}

// Whether no two users have one name, no two objects, and no two grants are of one object to one grantee.
fn is_nothing_shared(records: &SortedRecords, numbers: &mut Vec<u64, Heap>) -> bool
    requires room { length records.now.items ≤ vec_capacity numbers.old }
    ensures { result ≡ (apart.is_never_shared UserName records.now.items && apart.is_never_shared ObjectName records.now.items && apart.is_never_shared GrantPair records.now.items) }
{
    Label::UserName.is_never_shared(records, numbers)
        && Label::ObjectName.is_never_shared(records, numbers)
        && Label::GrantPair.is_never_shared(records, numbers)
}

// Whether OWNER is the one user of profile 01.
fn has_owner_alone(records: &SortedRecords) -> bool
    ensures { result ≡ validity.is_owner_alone (filter rules.is_db_o (users_in records.now.items)) }
{
    let mut found = false;
    for index in 0..records.len() {
        if let Some(user) = records.at(index).user() {
            if is_db_o(&user) {
                if found || !is_owner(&user) {
                    return false;
                }
                found = true;
            }
        }
    }
    found
}

// Whether a user has profile 01.
fn is_db_o(user: &User) -> bool
    ensures { result ≡ rules.is_db_o user.now }
{
    match user.profile {
        Profile::DbO => true,
        Profile::Dboo | Profile::Dbbu => false,
    }
}

// Whether a user is OWNER as a card is made with it.
fn is_owner(user: &User) -> bool
    ensures { result ≡ validity.is_owner user.now }
{
    user.stamp == 1
        && user.name.octets() == Name::OWNER
        && is_db_o(user)
        && user.owner == 1
        && user.secret.as_slice().is_empty()
        && user.tries == User::ALL_TRIES
}

// Whether each record is right.
fn is_each_right(next: u32, records: &SortedRecords) -> bool
    ensures { result ≡ list_all (validity.is_right_record next (users_in records.now.items) (objects_in records.now.items)) records.now.items }
{
    let mut table = None;
    for index in 0..records.len() {
        if !is_right(next, records, &records.at(index), &mut table) {
            return false;
        }
    }
    true
}

// Whether the stamp of a record was given out, and the rules of its kind hold. The table of the last row is kept in a place, for the next one.
fn is_right(
    next: u32,
    records: &SortedRecords,
    entry: &SpelledRecord<'_>,
    table: &mut Option<Object>,
) -> bool
    requires kept { IfSome table.old (validity.IsOfItsStamp (objects_in records.now.items)) }
    ensures kept { IfSome table.new (validity.IsOfItsStamp (objects_in records.now.items)) }
    ensures right { result ≡ validity.is_right_record next (users_in records.now.items) (objects_in records.now.items) entry.now }
{
    let stamp = entry.stamp();
    stamp >= 1
        && stamp < next
        && match entry.row() {
            Some(row) => is_right_row(records, &row, table),
            None => is_right_other(records, entry),
        }
}

// Whether the rules of its kind hold of what is no row. It isn't inlined, so that a row doesn't pay for its places.
#[inline(never)]
fn is_right_other(records: &SortedRecords, entry: &SpelledRecord<'_>) -> bool
    requires other { as_row entry.now ≡ None }
    ensures { result ≡ validity.meets_rules (users_in records.now.items) (objects_in records.now.items) entry.now }
{
    if let Some(user) = entry.user() {
        return is_right_user(records, &user);
    }
    if let Some(grant) = entry.grant() {
        return is_right_grant(records, &grant);
    }
    let mut place = None;
    entry.object_into(&mut place);
    let Some(object) = &place else { unreachable!() };
    is_right_object(records, object)
}

// Whether a user's name, owner and tries are right.
fn is_right_user(records: &SortedRecords, user: &User) -> bool
    ensures { result ≡ validity.is_right_user (users_in records.now.items) user.now }
{
    Name::PUBLIC != user.name.octets() && has_maker(records, user) && has_all_tries(user)
}

// Whether the user's owner may have made it.
fn has_maker(records: &SortedRecords, user: &User) -> bool
    ensures { result ≡ rules.has_maker (users_in records.now.items) user.now }
{
    match user.profile {
        Profile::DbO => true,
        Profile::Dboo => user.owner == 1,
        Profile::Dbbu => is_made_by_maker(records, user.owner),
    }
}

// Whether this owner is a user who makes others.
fn is_made_by_maker(records: &SortedRecords, owner: u32) -> bool
    ensures { result ≡ rules.is_made_by_maker (users_in records.now.items) owner }
{
    match find_user(records, owner) {
        Some(user) => is_maker(&user),
        None => false,
    }
}

// Whether a user may make users and objects.
fn is_maker(user: &User) -> bool
    ensures { result ≡ rules.is_maker user.now.profile }
{
    match user.profile {
        Profile::DbO | Profile::Dboo => true,
        Profile::Dbbu => false,
    }
}

// Whether a user without a secret has all tries.
fn has_all_tries(user: &User) -> bool
    ensures { result ≡ rules.has_all_tries user.now }
{
    !user.secret.as_slice().is_empty() || user.tries == User::ALL_TRIES
}

// Whether an object's owner may own it, and what it rests on is there.
fn is_right_object(records: &SortedRecords, object: &Object) -> bool
    ensures { result ≡ validity.is_right_object (users_in records.now.items) (objects_in records.now.items) object.now }
{
    is_made_by_maker(records, object.owner) && is_founded(records, object)
}

// Whether what a grant allows is there, and who is allowed it.
fn is_right_grant(records: &SortedRecords, grant: &Grant) -> bool
    ensures { result ≡ rules.has_object_and_grantee (users_in records.now.items) (objects_in records.now.items) grant.now }
{
    is_object_there(records, grant.object)
        && (grant.grantee == 0 || is_user_there(records, grant.grantee))
}

// Whether a row's table is there, older than the row, and has a column for each value. It is kept in a place, for the next row.
fn is_right_row(records: &SortedRecords, row: &RowRecord, table: &mut Option<Object>) -> bool
    requires kept { IfSome table.old (validity.IsOfItsStamp (objects_in records.now.items)) }
    ensures kept { IfSome table.new (validity.IsOfItsStamp (objects_in records.now.items)) }
    ensures right { result ≡ rules.has_table (objects_in records.now.items) row.now }
{
    find_again(records, row.table, table);
    match table {
        Some(object) => fits_table(row, object),
        None => false,
    }
}

// Finds the object of a stamp, unless the one that was found last is it.
fn find_again(records: &SortedRecords, stamp: u32, place: &mut Option<Object>)
    requires kept { IfSome place.old (validity.IsOfItsStamp (objects_in records.now.items)) }
    ensures { place.new ≡ objects.object_stamped (objects_in records.now.items) stamp }
{
    match place {
        Some(object) if object.stamp == stamp => {}
        _ => find_object_into(records, stamp, place),
    }
}

// Whether an object is a table that is older than a row, and has a column for each of its values.
fn fits_table(row: &RowRecord, object: &Object) -> bool
    ensures { result ≡ rules.fits_table row.now object.now }
{
    match &object.kind {
        ObjectKind::Table { columns } => {
            object.stamp < row.stamp && columns.len() == row.row.len()
        }
        ObjectKind::View { .. } | ObjectKind::Dictionary { .. } => false,
    }
}

// Whether there is a user of a stamp.
fn is_user_there(records: &SortedRecords, stamp: u32) -> bool
    ensures { result ≡ list_any (λ (u : base.User). u.stamp == stamp) (users_in records.now.items) }
{
    find_user(records, stamp).is_some()
}

// Whether there is an object of a stamp.
fn is_object_there(records: &SortedRecords, stamp: u32) -> bool
    ensures { result ≡ list_any (λ (o : declared.Object). o.stamp == stamp) (objects_in records.now.items) }
{
    let mut place = None;
    find_object_into(records, stamp, &mut place);
    place.is_some()
}

// The user of a stamp.
fn find_user(records: &SortedRecords, stamp: u32) -> Option<User>
    ensures { result ≡ rules.user_stamped (users_in records.now.items) stamp }
{
    records.find(stamp)?.user()
}

/// The object of a stamp.
pub(crate) fn find_object(records: &SortedRecords, stamp: u32) -> Option<Object>
    ensures { result ≡ objects.object_stamped (objects_in records.now.items) stamp }
{
    let mut place = None;
    find_object_into(records, stamp, &mut place);
    place
}

/// Reads the object of a stamp into a place, where there is one. Otherwise the place is empty.
fn find_object_into(records: &SortedRecords, stamp: u32, place: &mut Option<Object>)
    ensures { place.new ≡ objects.object_stamped (objects_in records.now.items) stamp }
{
    match records.find(stamp) {
        Some(found) => found.object_into(place),
        None => *place = None,
    }
}
