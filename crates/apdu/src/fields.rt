// The data fields of commands, read: which operation the parameters of each ask for (ISO/IEC 7816-7).
ghost use Rattle.std.specs.Prelude.{◌≡◌, ◌≤◌, Some, length, option_map};
ghost use Rattle.scql_base.specs.declared.operation.Operation.TheVariants as operation;
ghost use Rattle.scql_base.specs.declared.operation.TheConstants.Command.{LONGEST_IN_PARTS};
ghost use Rattle.scql_base.specs.declared.row.TheConstants.Row.{LARGEST};
ghost use Rattle.scql_model.specs.Operations as table;
ghost use Rattle.scql_model.specs.Parameters as parameters;
ghost use Rattle.apdu.specs.Fields as fields;

use crate::lists::{columns_in, conditions_in, names_in, read_changes, read_row};
use crate::table::has_instruction;
use scql_base::{
    Conditions, Name, NameList, Octets, Operation, OperationKind, PackedChanges, Params,
    Privileges, Profile, Row, Subject, User,
};

/// The data field of a command in at most five parts, in which a row may have at most so many octets.
#[derive(Clone, Copy)]
pub(crate) struct DataField<'a> {
    pub octets: &'a [u8],
    pub limit: u16,
    pub ghost short: { length octets.now ≤ LONGEST_IN_PARTS },
    pub ghost limited: { limit ≤ LARGEST },
}

// Reads the operation that a data field asks for into a place. What the place has where none is read is left open. It isn't inlined,
// so that a scan needs no room for what the other operations are read into.
#[inline(never)]
pub(crate) fn read_operation(
    kind: OperationKind,
    field: &DataField<'_>,
    place: &mut Operation,
) -> Option<()>
    ensures { option_map (λ _. place.new) result ≡ parameters.operation_in (table.has_secrets table.operations) kind field.now.limit field.now.octets.now }
{
    let octets = field.octets;
    match kind {
        OperationKind::CreateTable => read_create_table(octets, place),
        OperationKind::CreateView => read_create_view(octets, place),
        OperationKind::CreateDictionary => read_create_dictionary(octets, place),
        OperationKind::DropTable => read_drop_table(octets, place),
        OperationKind::DropView => read_drop_view(octets, place),
        OperationKind::Grant => read_grant(octets, place),
        OperationKind::Revoke => read_revoke(octets, place),
        OperationKind::DeclareCursor => read_declare_cursor(octets, place),
        OperationKind::Insert => read_insert(field, place),
        OperationKind::Update => read_update(field, place),
        OperationKind::PresentUser => read_present_user(octets, place),
        OperationKind::CreateUser => read_create_user(has_instruction(0x20), octets, place),
        OperationKind::DeleteUser => read_delete_user(octets, place),
        OperationKind::Verify => read_verify(octets, place),
        OperationKind::OpenCursor => put(Operation::OpenCursor, place),
        OperationKind::Next => put(Operation::Next, place),
        OperationKind::Fetch => put(Operation::Fetch, place),
        OperationKind::FetchNext => put(Operation::FetchNext, place),
        OperationKind::Delete => put(Operation::Delete, place),
        OperationKind::Begin => put(Operation::Begin, place),
        OperationKind::Commit => put(Operation::Commit, place),
        OperationKind::Rollback => put(Operation::Rollback, place),
        OperationKind::OpenChannel { number } => put(Operation::OpenChannel { number }, place),
        OperationKind::CloseChannel { number } => put(Operation::CloseChannel { number }, place),
        OperationKind::GetResponse => put(Operation::GetResponse, place),
    }
}

// Puts an operation into a place.
fn put(operation: Operation, place: &mut Operation) -> Option<()>
    ensures { option_map (λ _. place.new) result ≡ Some operation }
{
    *place = operation;
    Some(())
}

// Each operation with a data field is read in a function of its own, which isn't inlined: what a function clears as it is entered is
// then cleared for its operation alone.
#[inline(never)]
fn read_drop_table(octets: &[u8], place: &mut Operation) -> Option<()>
    ensures { option_map (λ _. place.new) result ≡ option_map operation.DropTable (fields.read_by fields.name_in octets.now) }
{
    let name = name_in(octets)?;
    *place = Operation::DropTable { name };
    Some(())
}

#[inline(never)]
fn read_drop_view(octets: &[u8], place: &mut Operation) -> Option<()>
    ensures { option_map (λ _. place.new) result ≡ option_map operation.DropView (fields.read_by fields.name_in octets.now) }
{
    let name = name_in(octets)?;
    *place = Operation::DropView { name };
    Some(())
}

#[inline(never)]
fn read_present_user(octets: &[u8], place: &mut Operation) -> Option<()>
    ensures { option_map (λ _. place.new) result ≡ option_map operation.PresentUser (fields.read_by fields.name_in octets.now) }
{
    let name = name_in(octets)?;
    *place = Operation::PresentUser { name };
    Some(())
}

#[inline(never)]
fn read_delete_user(octets: &[u8], place: &mut Operation) -> Option<()>
    ensures { option_map (λ _. place.new) result ≡ option_map operation.DeleteUser (fields.read_by fields.name_in octets.now) }
{
    let name = name_in(octets)?;
    *place = Operation::DeleteUser { name };
    Some(())
}

#[inline(never)]
fn read_create_table(octets: &[u8], place: &mut Operation) -> Option<()>
    ensures { option_map (λ _. place.new) result ≡ fields.read_by parameters.create_table_in octets.now }
{
    let (name, rest) = Params::first_in(octets)?;
    let name = Name::read(name)?;
    let columns = columns_in(rest)?;
    *place = Operation::CreateTable { name, columns };
    Some(())
}

#[inline(never)]
fn read_create_view(octets: &[u8], place: &mut Operation) -> Option<()>
    ensures { option_map (λ _. place.new) result ≡ fields.read_by parameters.create_view_in octets.now }
{
    let (name, rest) = Params::first_in(octets)?;
    let (base, rest) = Params::first_in(rest)?;
    let (columns, conditions) = choice_in(rest)?;
    let name = Name::read(name)?;
    let base = Name::read(base)?;
    *place = Operation::CreateView {
        name,
        base,
        columns,
        conditions,
    };
    Some(())
}

#[inline(never)]
fn read_create_dictionary(octets: &[u8], place: &mut Operation) -> Option<()>
    ensures { option_map (λ _. place.new) result ≡ fields.read_by parameters.create_dictionary_in octets.now }
{
    let (name, rest) = Params::first_in(octets)?;
    let code = Params::only_in(rest)?;
    let subject = subject_in(code)?;
    let name = Name::read(name)?;
    *place = Operation::CreateDictionary { name, subject };
    Some(())
}

// A name alone.
fn name_in(octets: &[u8]) -> Option<Name>
    ensures { result ≡ fields.read_by fields.name_in octets.now }
{
    Name::read(Params::only_in(octets)?)
}

#[inline(never)]
fn read_grant(octets: &[u8], place: &mut Operation) -> Option<()>
    ensures { option_map (λ _. place.new) result ≡ fields.read_by (parameters.granted_in operation.Grant) octets.now }
{
    let (privileges, object, grantee) = granted_in(octets)?;
    *place = Operation::Grant {
        privileges,
        object,
        grantee,
    };
    Some(())
}

#[inline(never)]
fn read_revoke(octets: &[u8], place: &mut Operation) -> Option<()>
    ensures { option_map (λ _. place.new) result ≡ fields.read_by (parameters.granted_in operation.Revoke) octets.now }
{
    let (privileges, object, grantee) = granted_in(octets)?;
    *place = Operation::Revoke {
        privileges,
        object,
        grantee,
    };
    Some(())
}

fn granted_in(octets: &[u8]) -> Option<(Privileges, Name, Name)>
    ensures { result ≡ fields.read_by fields.granted_in octets.now }
{
    let (privileges, rest) = Params::first_in(octets)?;
    let (object, rest) = Params::first_in(rest)?;
    let grantee = Params::only_in(rest)?;
    let privileges = privileges_in(privileges)?;
    let object = Name::read(object)?;
    let grantee = Name::read(grantee)?;
    Some((privileges, object, grantee))
}

#[inline(never)]
fn read_declare_cursor(octets: &[u8], place: &mut Operation) -> Option<()>
    ensures { option_map (λ _. place.new) result ≡ fields.read_by parameters.declare_cursor_in octets.now }
{
    let (object, rest) = Params::first_in(octets)?;
    let (columns, conditions) = choice_in(rest)?;
    let object = Name::read(object)?;
    *place = Operation::DeclareCursor {
        object,
        columns,
        conditions,
    };
    Some(())
}

#[inline(never)]
fn read_insert(field: &DataField<'_>, place: &mut Operation) -> Option<()>
    ensures { option_map (λ _. place.new) result ≡ fields.read_by (parameters.insert_in field.now.limit) field.now.octets.now }
{
    let (table, rest) = Params::first_in(field.octets)?;
    let table = Name::read(table)?;
    *place = Operation::Insert {
        table,
        row: Row::new(),
    };
    match place {
        Operation::Insert { row, .. } => read_row(field.limit, rest, row),
        _ => unreachable!(),
    }
}

#[inline(never)]
fn read_update(field: &DataField<'_>, place: &mut Operation) -> Option<()>
    ensures { option_map (λ _. place.new) result ≡ fields.read_by parameters.update_in field.now.octets.now }
{
    *place = Operation::Update {
        changes: PackedChanges::new(),
    };
    match place {
        Operation::Update { changes } => read_changes(field.octets, changes),
        _ => unreachable!(),
    }
}

#[inline(never)]
fn read_create_user(secrets: bool, octets: &[u8], place: &mut Operation) -> Option<()>
    ensures { option_map (λ _. place.new) result ≡ fields.read_by (parameters.create_user_in secrets) octets.now }
{
    let (name, rest) = Params::first_in(octets)?;
    let (profile, rest) = Params::first_in(rest)?;
    let secret = Params::only_in(rest)?;
    let profile = made_profile_in(profile)?;
    let name = Name::read(name)?;
    let secret = new_secret_in(secrets, secret)?;
    *place = Operation::CreateUser {
        name,
        profile,
        secret,
    };
    Some(())
}

// The bare secret, which isn't empty.
#[inline(never)]
fn read_verify(octets: &[u8], place: &mut Operation) -> Option<()>
    ensures { option_map (λ _. place.new) result ≡ parameters.only_where (parameters.is_verified_secret octets.now) (operation.Verify octets.now) }
{
    if octets.is_empty() {
        return None;
    }
    let secret = Octets::of(octets)?;
    *place = Operation::Verify { secret };
    Some(())
}

// The number of columns, so many names, and conditions to the end.
fn choice_in(octets: &[u8]) -> Option<(NameList, Conditions)>
    ensures { option_map fields.choice_of result ≡ fields.read_by parameters.choice_in octets.now }
{
    let (string, rest) = Params::first_in(octets)?;
    let count = octet_in(string)?;
    let (columns, rest) = names_in(usize::from(count), rest)?;
    let conditions = conditions_in(rest)?;
    Some((columns, conditions))
}

fn octet_in(string: &[u8]) -> Option<u8>
    ensures { result ≡ fields.octet_in string.now }
{
    match string {
        [octet] => Some(*octet),
        _ => None,
    }
}

fn privileges_in(string: &[u8]) -> Option<Privileges>
    ensures { result ≡ fields.privileges_in string.now }
{
    match string {
        [bits @ 1..=15] => Some(Privileges { bits: *bits }),
        _ => None,
    }
}

fn subject_in(string: &[u8]) -> Option<Subject>
    ensures { result ≡ fields.subject_in string.now }
{
    match string {
        [code] => Subject::of(*code),
        _ => None,
    }
}

// Nobody is made with the profile of OWNER.
fn made_profile_in(string: &[u8]) -> Option<Profile>
    ensures { result ≡ fields.made_profile_in string.now }
{
    match string {
        [Profile::DBOO] => Some(Profile::Dboo),
        [Profile::DBBU] => Some(Profile::Dbbu),
        _ => None,
    }
}

// A secret is empty, or where secrets can be shown has 4 to 8 octets.
fn new_secret_in(secrets: bool, string: &[u8]) -> Option<Octets<8>>
    ensures { result ≡ parameters.only_where (parameters.is_new_secret secrets string.now) string.now }
{
    if string.is_empty() || secrets && string.len() >= User::SHORTEST_SECRET {
        Octets::of(string)
    } else {
        None
    }
}
