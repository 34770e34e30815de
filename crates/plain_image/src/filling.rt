// The records in the slots of a store, put into a plain database.
ghost use Rattle.std.specs.Prelude.{◌≡◌, ◌≤◌, [], None, Some, true, IfOk, IfSome, OnOk, is_some, length};
ghost use Rattle.std.specs.List.{list_all};
ghost use Rattle.eeprom.specs.StoreOf.{most_cells};
ghost use Rattle.scql_model.specs.Database as model;
ghost use Rattle.scql_model.specs.Database.{IsValid};
ghost use Rattle.scql_model.specs.Opens.{Holds, is_spelled};
ghost use Rattle.scql_model.specs.Records.{user_in, object_in, grant_in, row_in, user_record, object_fits, grant_record, row_record};
ghost use Rattle.plain_image.specs.Found.{AreWithin, IsFilledFrom, IsFoundIn, PutsFound, is_admitted, is_short_object, put_found, records_in};

use crate::PlainStore;
use crate::counters::Counters;
use crate::slot::SlotOctets;
use catalog_codec::{Counter, Record};
use eeprom::{Heap, MOST_CELLS};
use plain_database::PlainDatabase;
use scql_base::{Grant, Object, RowRecord, User};
use std::alloc::AllocError;

/// The database whose records are those in the slots of a store, where each slot that isn't empty has a record that isn't too long, and one has
/// the counter.
pub(crate) fn database_in(
    alloc: Heap,
    store: &PlainStore,
) -> Result<Option<PlainDatabase>, AllocError>
    ensures found { IfOk result (λ found. IfSome found (IsFoundIn store.now)) }
    ensures none { IfOk result (λ found. found ≡ None → (db : model.Database) → Holds store.now.slots db → IsValid db → ⊥) }
{
    if store.slots.len() > usize::from(MOST_CELLS) {
        return Ok(None);
    }
    let mut database = PlainDatabase::new(alloc, store.slots.len() as u16, store.row_limit)?;
    let Some(counters) = fill(&mut database, &store.slots)? else {
        return Ok(None);
    };
    let Counters::Single { next } = counters else {
        return Ok(None);
    };
    database.set_next(next);
    Ok(Some(database))
}

// Puts the records in slots into an empty database, from the last slot to the first, and tells the counters among them.
fn fill(
    database: &mut PlainDatabase,
    slots: &[Option<SlotOctets>],
) -> Result<Option<Counters>, AllocError>
    requires few { length slots.now ≤ most_cells }
    requires empty { database.old ≡ records_in database.old.cells database.old.limit [] }
    ensures filled { IfOk result (λ found. IfSome found (IsFilledFrom slots.now database.old database.new)) }
    ensures admitted { IfOk result (λ found. is_some found ≡ list_all is_admitted slots.now) }
{
    let mut counters = Counters::Missing;
    let mut left = slots.len();
    while left > 0 {
        left -= 1;
        if let Some(entry) = &slots[left] {
            let octets = entry.as_slice();
            if !is_short(octets) || !put_record(database, octets)? {
                return Ok(None);
            }
            counters = counters.and_of(octets);
        }
    }
    Ok(Some(counters))
}

// Whether octets, where they are those of an object, aren't too many.
fn is_short(octets: &[u8]) -> bool
    ensures { result ≡ is_short_object octets.now }
{
    match Object::decode(octets) {
        Some(_) => octets.len() <= Object::LONGEST,
        None => true,
    }
}

// Puts a record into a database, and says whether the octets are those of one. That of a counter is put nowhere.
fn put_record(database: &mut PlainDatabase, octets: &[u8]) -> Result<bool, AllocError>
    ensures known { IfOk result (λ known. known ≡ is_spelled (Some octets.now)) }
    ensures put { OnOk result (database.new ≡ record database.old {
      users = put_found (λ u. u.stamp) (user_in octets.now) database.old.users;
      objects = put_found (λ o. o.stamp) (object_in octets.now) database.old.objects;
      grants = put_found (λ g. g.stamp) (grant_in octets.now) database.old.grants;
      rows = put_found (λ r. r.stamp) (row_in octets.now) database.old.rows;
    }) }
    ensures limits { AreWithin database.old → OnOk result (AreWithin database.new) }
{
    let is_user = put_user(database, octets)?;
    let is_object = put_object(database, octets)?;
    let is_grant = put_grant(database, octets)?;
    let is_row = put_row(database, octets)?;
    Ok(Counter::decode(octets).is_some() || is_user || is_object || is_grant || is_row)
}

// Puts a user into a database, where the octets are those of one.
fn put_user(database: &mut PlainDatabase, octets: &[u8]) -> Result<bool, AllocError>
    ensures { PutsFound user_record.fits (user_in octets.now) database.old.users database.new.users result (database.new ≡ record database.old { users = put_found (λ u. u.stamp) (user_in octets.now) database.old.users }) }
{
    match User::decode(octets) {
        Some(user) => {
            database.put_user(user)?;
            Ok(true)
        }
        None => Ok(false),
    }
}

// Puts an object into a database, where the octets are those of one.
fn put_object(database: &mut PlainDatabase, octets: &[u8]) -> Result<bool, AllocError>
    ensures { PutsFound object_fits (object_in octets.now) database.old.objects database.new.objects result (database.new ≡ record database.old { objects = put_found (λ o. o.stamp) (object_in octets.now) database.old.objects }) }
{
    match Object::decode(octets) {
        Some(object) => {
            database.put_object(object)?;
            Ok(true)
        }
        None => Ok(false),
    }
}

// Puts a grant into a database, where the octets are those of one.
fn put_grant(database: &mut PlainDatabase, octets: &[u8]) -> Result<bool, AllocError>
    ensures { PutsFound grant_record.fits (grant_in octets.now) database.old.grants database.new.grants result (database.new ≡ record database.old { grants = put_found (λ g. g.stamp) (grant_in octets.now) database.old.grants }) }
{
    match Grant::decode(octets) {
        Some(grant) => {
            database.put_grant(grant)?;
            Ok(true)
        }
        None => Ok(false),
    }
}

// Puts a row into a database, where the octets are those of one.
fn put_row(database: &mut PlainDatabase, octets: &[u8]) -> Result<bool, AllocError>
    ensures { PutsFound row_record.fits (row_in octets.now) database.old.rows database.new.rows result (database.new ≡ record database.old { rows = put_found (λ r. r.stamp) (row_in octets.now) database.old.rows }) }
{
    match RowRecord::decode(octets) {
        Some(row) => {
            database.put_row(row)?;
            Ok(true)
        }
        None => Ok(false),
    }
}
