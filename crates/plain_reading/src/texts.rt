// The columns of dictionaries, and those of objects in one text.
ghost use Rattle.std.specs.Prelude.{◌≡◌, ◌+◌, ◌<◌, ◌≤◌, ◌++◌, ◌∷◌, [], length, true};
ghost use Rattle.std.specs.List.{join_with_byte};
ghost use Rattle.scql_base.specs.Name.{is_name};
ghost use Rattle.scql_base.specs.declared.name_list.TheConstants.NameList.{MOST};
ghost use Rattle.scql_base.specs.declared.row.TheConstants.Row.{LONGEST_VALUE};
ghost use Rattle.scql_model.specs.Dictionaries.{columns_told};
ghost use Rattle.scql_model.specs.Objects as objects;
ghost use Rattle.plain_database.specs.Within.{IsWithin};

use arrayvec::ArrayVec;
use scql_base::{Copied, Name, NameList, ObjectKind, Row, Subject};

/// The columns of an object.
pub(crate) fn columns_of(kind: &ObjectKind) -> NameList
    ensures { result ≡ objects.columns_of kind.now }
{
    match kind {
        ObjectKind::Table { columns } | ObjectKind::View { columns, .. } => columns.copy(),
        ObjectKind::Dictionary { subject } => dictionary_columns(*subject),
    }
}

/// The columns of a dictionary.
pub(crate) fn dictionary_columns(subject: Subject) -> NameList
    ensures { result ≡ objects.dictionary_columns subject }
{
    let mut columns = NameList::new();
    match subject {
        Subject::Objects => {
            add(&mut columns, b"NAME");
            add(&mut columns, b"KIND");
            add(&mut columns, b"OWNER");
            add(&mut columns, b"BASE");
            add(&mut columns, b"COLS");
        }
        Subject::Users => {
            add(&mut columns, b"NAME");
            add(&mut columns, b"PROFILE");
            add(&mut columns, b"OWNER");
        }
        Subject::Grants => {
            add(&mut columns, b"OBJECT");
            add(&mut columns, b"GRANTEE");
            add(&mut columns, b"PRIV");
        }
    }
    columns
}

/// The names of an object's columns, with a comma between each two.
pub(crate) fn columns_text(kind: &ObjectKind) -> ArrayVec<u8, { Row::LONGEST_VALUE }>
    ensures { IsWithin LONGEST_VALUE result.items (columns_told kind.now) }
{
    let columns = columns_of(kind);
    joined(columns.as_slice())
}

// Names, with a comma between each two.
fn joined(names: &[Name]) -> ArrayVec<u8, { Row::LONGEST_VALUE }>
    requires few { length names.now ≤ MOST }
    ensures { IsWithin LONGEST_VALUE result.items (join_with_byte 0x2C names.now) }
{
    match names {
        [first, others @ ..] => joined_to(first, others),
        [] => ArrayVec::new(),
    }
}

// A name and others behind it, with a comma between each two.
fn joined_to(first: &Name, others: &[Name]) -> ArrayVec<u8, { Row::LONGEST_VALUE }>
    requires few { length others.now < MOST }
    ensures { IsWithin LONGEST_VALUE result.items (join_with_byte 0x2C (first.now ∷ others.now)) }
{
    let mut text = ArrayVec::new();
    extend(&mut text, first.octets());
    for name in others {
        text.push(b',');
        extend(&mut text, name.octets());
    }
    text
}

// Puts octets behind those of a text that has room for them.
fn extend(text: &mut ArrayVec<u8, { Row::LONGEST_VALUE }>, octets: &[u8])
    requires room { length text.old.items + length octets.now ≤ LONGEST_VALUE }
    ensures { text.new.items ≡ text.old.items ++ octets.now }
{
    let fits = text.try_extend_from_slice(octets).is_ok();
    prove!(fits);
}

// Puts a name at the end of a list that has room for it.
fn add(columns: &mut NameList, name: &[u8])
    requires room { length columns.old < MOST }
    requires name { is_name name.now ≡ true }
    ensures { columns.new ≡ columns.old ++ name.now ∷ [] }
{
    if let Some(name) = Name::read(name) {
        let _added = columns.push(name);
    }
}
