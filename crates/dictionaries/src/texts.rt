// COLS: the names of columns in one text, with a comma between each two.
ghost use Rattle.std.specs.Prelude.{◌≡◌, ◌+◌, ◌≤◌, ◌++◌, length};
ghost use Rattle.std.specs.List.{join_with_byte};
ghost use Rattle.scql_base.specs.declared.row.TheConstants.Row.{LONGEST_VALUE};
ghost use Rattle.scql_model.specs.Dictionaries.{columns_told};
ghost use Rattle.scql_model.specs.Objects.{dictionary_columns};
ghost use Rattle.dictionaries.specs.Told.{with_name};

use arrayvec::ArrayVec;
use scql_base::{Name, NameList, ObjectKind, Row, Subject};

/// The names of an object's columns.
pub(crate) fn columns_text(kind: &ObjectKind) -> ArrayVec<u8, { Row::LONGEST_VALUE }>
    ensures text { result.items ≡ columns_told kind.now }
    ensures short { length result.items ≤ LONGEST_VALUE }
{
    match kind {
        ObjectKind::Table { columns } => joined(columns),
        ObjectKind::View { columns, .. } => joined(columns),
        ObjectKind::Dictionary { subject } => text_of(dictionary_text(*subject)),
    }
}

// The names, with a comma between each two.
fn joined(names: &NameList) -> ArrayVec<u8, { Row::LONGEST_VALUE }>
    ensures text { result.items ≡ join_with_byte 0x2C names.now }
    ensures short { length result.items ≤ LONGEST_VALUE }
{
    let mut text = ArrayVec::new();
    for name in names.as_slice() {
        add_name(&mut text, name);
    }
    text
}

// Puts a name behind those of a text.
fn add_name(text: &mut ArrayVec<u8, { Row::LONGEST_VALUE }>, name: &Name)
    requires room { length text.old.items + 9 ≤ LONGEST_VALUE }
    ensures text { text.new.items ≡ with_name text.old.items name.now }
    ensures length { length text.new.items ≤ length text.old.items + 9 }
{
    if !text.is_empty() {
        text.push(b',');
    }
    extend(text, name.octets());
}

// The columns of a dictionary.
fn dictionary_text(subject: Subject) -> &'static [u8]
    ensures text { result.now ≡ join_with_byte 0x2C (dictionary_columns subject) }
    ensures short { length result.now ≤ LONGEST_VALUE }
{
    match subject {
        Subject::Objects => b"NAME,KIND,OWNER,BASE,COLS",
        Subject::Users => b"NAME,PROFILE,OWNER",
        Subject::Grants => b"OBJECT,GRANTEE,PRIV",
    }
}

fn text_of(octets: &[u8]) -> ArrayVec<u8, { Row::LONGEST_VALUE }>
    requires short { length octets.now ≤ LONGEST_VALUE }
    ensures text { result.items ≡ octets.now }
{
    let mut text = ArrayVec::new();
    extend(&mut text, octets);
    text
}

// Puts octets behind those of a text that has room for them.
fn extend(text: &mut ArrayVec<u8, { Row::LONGEST_VALUE }>, octets: &[u8])
    requires room { length text.old.items + length octets.now ≤ LONGEST_VALUE }
    ensures { text.new.items ≡ text.old.items ++ octets.now }
{
    let fits = text.try_extend_from_slice(octets).is_ok();
    prove!(fits);
}
