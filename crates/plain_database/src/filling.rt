// How a database is filled: by records one after another, or from another database.
ghost use Rattle.std.specs.Prelude.{◌≡◌, ◌≤◌, length, nat_lt, vec_capacity};
ghost use Rattle.std.specs.List.{position};
ghost use Rattle.eeprom.specs.Slots.{put_in_order};
ghost use Rattle.plain_database.specs.Effects.{Puts};

use crate::record::Record;
use crate::{PlainDatabase, Stamped, ValidDatabase};
use eeprom::Heap;
use scql_base::{Copied, Grant, Object, RowRecord, User};
use std::alloc::AllocError;

impl PlainDatabase {
    /// The next record takes this stamp.
    pub fn set_next(&mut self, next: u32)
        ensures { self.new ≡ record self.old { next = next } }
    {
        self.next = next;
    }

    /// Puts a user before the first of a greater stamp.
    pub fn put_user(&mut self, user: User) -> Result<(), AllocError>
        ensures { Puts self.old self.new result (record self.old { users = put_in_order (λ u. u.stamp) user self.old.users }) }
    {
        put(&mut self.users, user)
    }

    /// Puts an object before the first of a greater stamp.
    pub fn put_object(&mut self, object: Object) -> Result<(), AllocError>
        ensures { Puts self.old self.new result (record self.old { objects = put_in_order (λ o. o.stamp) object self.old.objects }) }
    {
        put(&mut self.objects, object)
    }

    /// Puts a grant before the first of a greater stamp.
    pub fn put_grant(&mut self, grant: Grant) -> Result<(), AllocError>
        ensures { Puts self.old self.new result (record self.old { grants = put_in_order (λ g. g.stamp) grant self.old.grants }) }
    {
        put(&mut self.grants, grant)
    }

    /// Puts a row before the first of a greater stamp.
    pub fn put_row(&mut self, row: RowRecord) -> Result<(), AllocError>
        ensures { Puts self.old self.new result (record self.old { rows = put_in_order (λ r. r.stamp) row self.old.rows }) }
    {
        put(&mut self.rows, row)
    }

    /// Becomes the same database as a valid one, whose card has as many cells.
    pub fn take_over(&mut self, other: &ValidDatabase<'_>)
        requires { other.now.cells ≡ self.old.cells }
        ensures { self.new ≡ other.now }
    {
        let source = other.database();
        self.limit = source.limit;
        self.next = source.next;
        refill(&mut self.users, &source.users);
        refill(&mut self.objects, &source.objects);
        refill(&mut self.grants, &source.grants);
        refill(&mut self.rows, &source.rows);
    }
}

// Puts a record before the first of a greater stamp.
fn put<R: Record>(records: &mut Vec<R, Heap>, entry: R) -> Result<(), AllocError>
    ensures puts { Puts records.old.items records.new.items result (put_in_order R.stamp_of entry records.old.items) }
    ensures capacity { vec_capacity records.old ≤ vec_capacity records.new }
{
    let at = first_behind(records, entry.stamp()).unwrap_or(records.len());
    match records.insert(at, entry) {
        Ok(()) => Ok(()),
        Err(_) => Err(AllocError),
    }
}

// The place of the first record of a greater stamp.
fn first_behind<R: Record>(records: &[R], stamp: u32) -> Option<usize>
    ensures { result ≡ position (λ r. nat_lt stamp (R.stamp_of r)) records.now }
{
    records.iter().position(|record| stamp < record.stamp())
}

// Fills a list with the records of another one, for which it has room.
fn refill<R: Record>(list: &mut Vec<R, Heap>, from: &[R])
    requires { length from.now ≤ vec_capacity list.old }
    ensures items { list.new.items ≡ from.now }
    ensures capacity { vec_capacity list.new ≡ vec_capacity list.old }
{
    list.clear();
    for record in from {
        list.push_reserved(record.copy());
    }
}
