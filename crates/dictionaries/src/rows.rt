// The rows of dictionaries, from records and the names that they speak of.
ghost use Rattle.std.specs.Prelude.{◌≡◌, ◌+◌, ◌<◌, ◌≤◌, [], ◌∷◌, ◌++◌, length};
ghost use Rattle.scql_base.specs.Row.{row_size};
ghost use Rattle.scql_base.specs.declared.row.TheConstants.Row.{LARGEST, LONGEST_VALUE, MOST};
ghost use Rattle.scql_model.specs.Dictionaries as model;
ghost use Rattle.dictionaries.specs.Told.{base_named, grant_values, name_or_none, object_values, user_values};

use crate::texts::columns_text;
use scql_base::{Grant, Name, Object, ObjectKind, Row, User};

/// The row of an object, whose owner and whose base, where it is a view, have these names.
pub(crate) fn object_row(object: &Object, owner: &Option<Name>, base: &Option<Name>) -> Row
    ensures { result ≡ object_values object.now owner.now base.now }
{
    let mut row = Row::new();
    put(&mut row, object.name.octets());
    put(&mut row, &[kind_letter(&object.kind)]);
    put_name(&mut row, owner);
    put_base(&mut row, &object.kind, base);
    let columns = columns_text(&object.kind);
    put(&mut row, columns.as_slice());
    row
}

/// The row of a user, whose owner has this name.
pub(crate) fn user_row(user: &User, owner: &Option<Name>) -> Row
    ensures { result ≡ user_values user.now owner.now }
{
    let mut row = Row::new();
    put(&mut row, user.name.octets());
    put(&mut row, &[user.profile.code()]);
    put_name(&mut row, owner);
    row
}

/// The row of a grant, whose object and grantee have these names.
pub(crate) fn grant_row(grant: &Grant, object: &Option<Name>, grantee: &Option<Name>) -> Row
    ensures { result ≡ grant_values grant.now object.now (name_or_none grantee.now) }
{
    let mut row = Row::new();
    put_name(&mut row, object);
    put_name(&mut row, grantee);
    put(&mut row, &[grant.privileges.bits]);
    row
}

// The letter of KIND.
fn kind_letter(kind: &ObjectKind) -> u8
    ensures { result ≡ model.kind_letter kind.now }
{
    match kind {
        ObjectKind::Table { .. } => b'T',
        ObjectKind::View { .. } => b'V',
        ObjectKind::Dictionary { .. } => b'D',
    }
}

// Puts what BASE tells.
fn put_base(row: &mut Row, kind: &ObjectKind, base: &Option<Name>)
    requires count { length row.old < MOST }
    requires room { row_size row.old + 8 < LARGEST }
    ensures put { row.new ≡ row.old ++ base_named kind.now base.now ∷ [] }
    ensures count { length row.new ≡ length row.old + 1 }
    ensures size { row_size row.new ≤ row_size row.old + 9 }
{
    match kind {
        ObjectKind::Table { .. } => put(row, b""),
        ObjectKind::View { .. } => put_name(row, base),
        ObjectKind::Dictionary { subject } => put(row, &[subject.code()]),
    }
}

// Puts a name, or an empty value where there is none.
fn put_name(row: &mut Row, name: &Option<Name>)
    requires count { length row.old < MOST }
    requires room { row_size row.old + 8 < LARGEST }
    ensures put { row.new ≡ row.old ++ name_or_none name.now ∷ [] }
    ensures count { length row.new ≡ length row.old + 1 }
    ensures size { row_size row.new ≤ row_size row.old + 9 }
{
    match name {
        Some(name) => put(row, name.octets()),
        None => put(row, b""),
    }
}

// Puts a value at the end of a row that has room for it.
fn put(row: &mut Row, value: &[u8])
    requires count { length row.old < MOST }
    requires narrow { length value.now ≤ LONGEST_VALUE }
    requires room { row_size row.old + length value.now < LARGEST }
    ensures put { row.new ≡ row.old ++ value.now ∷ [] }
    ensures count { length row.new ≡ length row.old + 1 }
    ensures size { row_size row.new ≡ row_size row.old + (length value.now + 1) }
{
    // There is room, so this doesn't fail.
    let _put = row.push(value);
}
