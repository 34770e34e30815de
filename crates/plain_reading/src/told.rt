// Records as the rows of dictionaries that tell of them.
ghost use Rattle.std.specs.Prelude.{ℕ, ◌≡◌, ◌≤◌, length, refl};
ghost use Rattle.scql_base.specs.declared.row.TheConstants.Row.{LONGEST_VALUE};
ghost use Rattle.scql_model.specs.Database.{Database};
ghost use Rattle.scql_model.specs.Dictionaries as model;
ghost use Rattle.scql_model.specs.Objects.{StampedRow};
ghost use Rattle.plain_reading.specs.Put.{HasPlace, IsPut};

use crate::names::{grantee_name, object_name, object_owner, user_name};
use crate::texts::columns_text;
use plain_database::{Stamped, ValidDatabase};
use scql_base::{Grant, Object, ObjectKind, Row, User};

/// A record of which dictionaries tell.
pub(crate) trait Told: Stamped {
    /// The row that tells of it.
    ghost told: { Database → Self → StampedRow };

    /// The stamp of the user who owns it.
    ghost owned_by: { Database → Self → ℕ };

    /// The stamp of its owner.
    fn owner(&self, database: &ValidDatabase<'_>) -> u32
        ensures { result ≡ owned_by database.now self.now };

    /// The values of its row.
    fn values(&self, database: &ValidDatabase<'_>) -> Row
        ensures { result ≡ (told database.now self.now).values };

    /// Its row has its stamp.
    ghost same_stamp: { (db : Database) (x : Self) → (told db x).stamp ≡ Self.stamp_of x };
}

impl Told for Object {
    ghost told = { model.object_told };

    ghost owned_by = { λ _ object. object.owner };

    ghost same_stamp = { λ _ _. refl };

    fn owner(&self, _database: &ValidDatabase<'_>) -> u32 {
        self.owner
    }

    fn values(&self, database: &ValidDatabase<'_>) -> Row {
        let mut row = Row::new();
        put(&mut row, self.name.octets());
        put(&mut row, &[kind_letter(&self.kind)]);
        put(&mut row, user_name(database, self.owner));
        put_base(&mut row, database, &self.kind);
        let columns = columns_text(&self.kind);
        put(&mut row, columns.as_slice());
        row
    }
}

impl Told for User {
    ghost told = { model.user_told };

    ghost owned_by = { λ _ user. user.owner };

    ghost same_stamp = { λ _ _. refl };

    fn owner(&self, _database: &ValidDatabase<'_>) -> u32 {
        self.owner
    }

    fn values(&self, database: &ValidDatabase<'_>) -> Row {
        let mut row = Row::new();
        put(&mut row, self.name.octets());
        put(&mut row, &[self.profile.code()]);
        put(&mut row, user_name(database, self.owner));
        row
    }
}

impl Told for Grant {
    ghost told = { model.grant_told };

    ghost owned_by = { λ database grant. model.object_owner database grant.object };

    ghost same_stamp = { λ _ _. refl };

    fn owner(&self, database: &ValidDatabase<'_>) -> u32 {
        object_owner(database, self.object)
    }

    fn values(&self, database: &ValidDatabase<'_>) -> Row {
        let mut row = Row::new();
        put(&mut row, object_name(database, self.object));
        put(&mut row, grantee_name(database, self.grantee));
        put(&mut row, &[self.privileges.bits]);
        row
    }
}

// The letter of KIND.
fn kind_letter(kind: &ObjectKind) -> u8
    ensures { result ≡ model.kind_letter kind.now }
{
    match kind {
        ObjectKind::Table { .. } => b'T',
        ObjectKind::View { .. } => b'V',
        ObjectKind::Dictionary { .. } => b'D',
    }
}

// Puts what BASE tells.
fn put_base(row: &mut Row, database: &ValidDatabase<'_>, kind: &ObjectKind)
    requires { HasPlace 8 row.old }
    ensures put { IsPut row.old row.new (model.base_told database.now kind.now) }
    ensures short { length (model.base_told database.now kind.now) ≤ 8 }
{
    match kind {
        ObjectKind::Table { .. } => put(row, b""),
        ObjectKind::View { base, .. } => put(row, object_name(database, *base)),
        ObjectKind::Dictionary { subject } => put(row, &[subject.code()]),
    }
}

// Puts a value at the end of a row that has room for it.
fn put(row: &mut Row, value: &[u8])
    requires place { HasPlace (length value.now) row.old }
    requires narrow { length value.now ≤ LONGEST_VALUE }
    ensures { IsPut row.old row.new value.now }
{
    // There is room, so this doesn't fail.
    let _put = row.push(value);
}
