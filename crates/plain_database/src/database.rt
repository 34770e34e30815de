// A database as plain lists of its records.
ghost use Rattle.std.specs.Prelude.{◌≡◌, [], IfOk};

use eeprom::Heap;
use scql_base::{Grant, Object, RowRecord, User};
use std::alloc::AllocError;
use std::marker::Model;

/// A database as lists of its records. Each list has room for as many records as the card has cells, so that no change takes memory.
#[derive(Drop)]
pub struct PlainDatabase {
    pub(crate) cells: u16,
    pub(crate) limit: u16,
    pub(crate) next: u32,
    pub(crate) users: Vec<User, Heap>,
    pub(crate) objects: Vec<Object, Heap>,
    pub(crate) grants: Vec<Grant, Heap>,
    pub(crate) rows: Vec<RowRecord, Heap>,
}

impl Model for PlainDatabase {
    ghost use Rattle.std.specs.Vec.{vec_capacity};
    ghost use Rattle.scql_model.specs.Database.{Database};
    ghost use Rattle.plain_database.specs.Roomy.{IsRoomy};

    ghost Value = { Database };

    ghost view = { λ d. record { cells = d.cells; limit = d.limit; next = d.next; users = d.users.items; objects = d.objects.items; grants = d.grants.items; rows = d.rows.items } };

    ghost invariant = { λ d. IsRoomy d.cells (vec_capacity d.users) (vec_capacity d.objects) (vec_capacity d.grants) (vec_capacity d.rows) };
}

impl PlainDatabase {
    /// The stamp that a card gives out first, behind that of OWNER.
    pub const FIRST_STAMP: u32 = 2;

    /// A database without records, on a card of so many cells, whose rows may have so many octets.
    pub fn new(alloc: Heap, cells: u16, limit: u16) -> Result<PlainDatabase, AllocError>
        ensures { IfOk result (λ database. database ≡ record { cells = cells; limit = limit; next = 2; users = []; objects = []; grants = []; rows = [] }) }
    {
        let room = usize::from(cells);
        Ok(PlainDatabase {
            cells,
            limit,
            next: PlainDatabase::FIRST_STAMP,
            users: Vec::with_capacity(alloc, room)?,
            objects: Vec::with_capacity(alloc, room)?,
            grants: Vec::with_capacity(alloc, room)?,
            rows: Vec::with_capacity(alloc, room)?,
        })
    }

    /// How many cells the card has.
    pub fn cells(&self) -> u16
        ensures { result ≡ self.now.cells }
    {
        self.cells
    }

    /// The most octets that a row may have.
    pub fn limit(&self) -> u16
        ensures { result ≡ self.now.limit }
    {
        self.limit
    }

    /// The stamp that the next record takes.
    pub fn next(&self) -> u32
        ensures { result ≡ self.now.next }
    {
        self.next
    }

    /// The users in the order of their stamps.
    pub fn users(&self) -> &[User]
        ensures { result.now ≡ self.now.users }
    {
        &self.users
    }

    /// The objects in the order of their stamps.
    pub fn objects(&self) -> &[Object]
        ensures { result.now ≡ self.now.objects }
    {
        &self.objects
    }

    /// The grants in the order of their stamps.
    pub fn grants(&self) -> &[Grant]
        ensures { result.now ≡ self.now.grants }
    {
        &self.grants
    }

    /// The rows in the order of their stamps.
    pub fn rows(&self) -> &[RowRecord]
        ensures { result.now ≡ self.now.rows }
    {
        &self.rows
    }
}
