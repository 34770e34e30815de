// The columns of dictionaries.
ghost use Rattle.std.specs.Prelude.{◌≡◌, ◌<◌, ◌++◌, [], ◌∷◌, length, true};
ghost use Rattle.scql_base.specs.Name.{is_name};
ghost use Rattle.scql_base.specs.declared.name_list.TheConstants.NameList.{MOST};
ghost use Rattle.scql_base.specs.declared.words.Subject.TheVariants as subjects;
ghost use Rattle.scql_model.specs.Objects.{dictionary_columns};

use scql_base::{Name, NameList, Subject};

/// The columns of a dictionary.
pub fn columns_of(subject: Subject) -> NameList
    ensures { result ≡ dictionary_columns subject }
{
    match subject {
        Subject::Objects => columns_of_objects(),
        Subject::Users => columns_of_users(),
        Subject::Grants => columns_of_grants(),
    }
}

fn columns_of_objects() -> NameList
    ensures { result ≡ dictionary_columns subjects.Objects }
{
    let mut columns = NameList::new();
    add(&mut columns, b"NAME");
    add(&mut columns, b"KIND");
    add(&mut columns, b"OWNER");
    add(&mut columns, b"BASE");
    add(&mut columns, b"COLS");
    columns
}

fn columns_of_users() -> NameList
    ensures { result ≡ dictionary_columns subjects.Users }
{
    let mut columns = NameList::new();
    add(&mut columns, b"NAME");
    add(&mut columns, b"PROFILE");
    add(&mut columns, b"OWNER");
    columns
}

fn columns_of_grants() -> NameList
    ensures { result ≡ dictionary_columns subjects.Grants }
{
    let mut columns = NameList::new();
    add(&mut columns, b"OBJECT");
    add(&mut columns, b"GRANTEE");
    add(&mut columns, b"PRIV");
    columns
}

// Puts a name at the end of a list that has room for it.
fn add(columns: &mut NameList, name: &[u8])
    requires room { length columns.old < MOST }
    requires name { is_name name.now ≡ true }
    ensures { columns.new ≡ columns.old ++ name.now ∷ [] }
{
    if let Some(name) = Name::read(name) {
        let _added = columns.push(name);
    }
}
