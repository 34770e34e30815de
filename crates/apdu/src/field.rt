// The data field of a command that is written (ISO/IEC 7816-7): the parameters of its operation, one behind the other.
ghost use Rattle.std.specs.Prelude.{◌≡◌, ◌<◌, ◌∷◌, [], IsSome, Some, false, length, map, option_map};
ghost use Rattle.std.specs.List.{flat_map};
ghost use Rattle.scql_base.specs.Strings.{spelled};
ghost use Rattle.scql_base.specs.declared.operation.Operation.TheVariants as operation;
ghost use Rattle.scql_model.specs.Spelling as spelling;
ghost use Rattle.apdu.specs.Writing.{with_more};

use arrayvec::ArrayVec;
use scql_base::{
    Command, Condition, Conditions, Name, NameList, Octets, Operation, Privileges, Profile, Row,
    Subject,
};
use std::marker::Model;

/// A data field of at most 1,275 octets, or none, once there was no room for what was put at its end.
#[derive(Drop)]
pub(crate) struct Field {
    octets: ArrayVec<u8, { Command::LONGEST_IN_PARTS }>,
    is_whole: bool,
}

impl Model for Field {
    ghost use Rattle.std.specs.Prelude.{List, ℕ, Option, Some, None, if◌then◌else◌};

    ghost Value = { Option (List ℕ) };

    ghost view = { λ f. if f.is_whole then Some f.octets.items else None };
}

#[tactic(auto, using(crate::proofs::FieldsWritten::with_both, crate::proofs::FieldsWritten::with_some, crate::proofs::FieldsWritten::with_no_room, crate::proofs::FieldsWritten::with_none))]
impl Field {
    // No octets yet.
    pub(crate) fn new() -> Field
        ensures { result ≡ Some [] }
    {
        Field {
            octets: ArrayVec::new(),
            is_whole: true,
        }
    }

    // The octets, where there was room for all.
    pub(crate) fn octets(&self) -> Option<&[u8]>
        ensures { option_map (λ slice. slice.now) result ≡ self.now }
    {
        if self.is_whole {
            Some(self.octets.as_slice())
        } else {
            None
        }
    }

    // The octets, which are there.
    pub(crate) fn written(&self) -> &[u8]
        requires { IsSome self.now }
        ensures { Some result.now ≡ self.now }
    {
        self.octets.as_slice()
    }

    fn put_octets(&mut self, octets: &[u8])
        ensures { self.new ≡ with_more octets.now self.old }
    {
        if self.is_whole && octets.len() <= self.octets.remaining_capacity() {
            let fits = self.octets.try_extend_from_slice(octets).is_ok();
            prove!(fits);
        } else {
            self.is_whole = false;
        }
    }

    // A parameter: its length in one octet, and its octets.
    fn put_string(&mut self, string: &[u8])
        requires { length string.now < 256 }
        ensures { self.new ≡ with_more (spelled string.now) self.old }
    {
        self.put_octets(&[string.len() as u8]);
        self.put_octets(string);
    }

    // A parameter of one octet.
    fn put_octet(&mut self, octet: u8)
        ensures { self.new ≡ with_more (spelled (octet ∷ [])) self.old }
    {
        self.put_string(&[octet]);
    }

    fn put_name(&mut self, name: &Name)
        ensures { self.new ≡ with_more (spelled name.now) self.old }
    {
        self.put_string(name.octets());
    }

    fn put_names(&mut self, names: &[Name])
        ensures { self.new ≡ with_more (flat_map spelled names.now) self.old }
    {
        for name in names {
            self.put_name(name);
        }
    }

    fn put_condition(&mut self, condition: &Condition)
        ensures { self.new ≡ with_more (flat_map spelled (spelling.condition_strings condition.now)) self.old }
    {
        self.put_name(&condition.column);
        self.put_octet(condition.comparison.code());
        self.put_string(condition.value.as_slice());
    }

    fn put_conditions(&mut self, conditions: &[Condition])
        ensures { self.new ≡ with_more (flat_map spelled (flat_map spelling.condition_strings conditions.now)) self.old }
    {
        for condition in conditions {
            self.put_condition(condition);
        }
    }

    // The number of columns, their names, and conditions.
    fn put_choice(&mut self, columns: &NameList, conditions: &Conditions)
        ensures { self.new ≡ with_more (flat_map spelled (spelling.choice_strings columns.now conditions.now)) self.old }
    {
        self.put_octet(columns.len() as u8);
        self.put_names(columns.as_slice());
        self.put_conditions(conditions.as_slice());
    }

    fn put_grant(&mut self, privileges: Privileges, object: &Name, grantee: &Name)
        ensures { self.new ≡ with_more (flat_map spelled ((privileges ∷ []) ∷ object.now ∷ grantee.now ∷ [])) self.old }
    {
        self.put_octet(privileges.bits);
        self.put_name(object);
        self.put_name(grantee);
    }

    fn put_user(&mut self, name: &Name, profile: Profile, secret: &Octets<8>)
        ensures { self.new ≡ with_more (spelling.field_of (operation.CreateUser name.now profile secret.now)) self.old }
    {
        self.put_name(name);
        self.put_octet(profile.code());
        self.put_string(secret.as_slice());
    }

    fn put_table(&mut self, name: &Name, columns: &NameList)
        ensures { self.new ≡ with_more (spelling.field_of (operation.CreateTable name.now columns.now)) self.old }
    {
        self.put_name(name);
        self.put_names(columns.as_slice());
    }

    fn put_view(&mut self, name: &Name, base: &Name, columns: &NameList, conditions: &Conditions)
        ensures { self.new ≡ with_more (spelling.field_of (operation.CreateView name.now base.now columns.now conditions.now)) self.old }
    {
        self.put_name(name);
        self.put_cursor(base, columns, conditions);
    }

    fn put_dictionary(&mut self, name: &Name, subject: Subject)
        ensures { self.new ≡ with_more (spelling.field_of (operation.CreateDictionary name.now subject)) self.old }
    {
        self.put_name(name);
        self.put_octet(subject.code());
    }

    fn put_cursor(&mut self, object: &Name, columns: &NameList, conditions: &Conditions)
        ensures { self.new ≡ with_more (spelling.field_of (operation.DeclareCursor object.now columns.now conditions.now)) self.old }
    {
        self.put_name(object);
        self.put_choice(columns, conditions);
    }

    fn put_row(&mut self, table: &Name, row: &Row)
        ensures { self.new ≡ with_more (spelling.field_of (operation.Insert table.now row.now)) self.old }
    {
        self.put_name(table);
        self.put_octets(row.octets());
    }

    // The data field of an operation. Those that aren't named have none.
    pub(crate) fn put_operation(&mut self, operation: &Operation)
        ensures { self.new ≡ with_more (spelling.field_of operation.now) self.old }
    {
        match operation {
            Operation::CreateTable { name, columns } => self.put_table(name, columns),
            Operation::CreateView {
                name,
                base,
                columns,
                conditions,
            } => self.put_view(name, base, columns, conditions),
            Operation::CreateDictionary { name, subject } => self.put_dictionary(name, *subject),
            Operation::Grant {
                privileges,
                object,
                grantee,
            }
            | Operation::Revoke {
                privileges,
                object,
                grantee,
            } => self.put_grant(*privileges, object, grantee),
            Operation::DeclareCursor {
                object,
                columns,
                conditions,
            } => self.put_cursor(object, columns, conditions),
            Operation::Insert { table, row } => self.put_row(table, row),
            Operation::Update { changes } => self.put_octets(changes.octets()),
            Operation::CreateUser {
                name,
                profile,
                secret,
            } => self.put_user(name, *profile, secret),
            Operation::DropTable { name }
            | Operation::DropView { name }
            | Operation::PresentUser { name }
            | Operation::DeleteUser { name } => self.put_name(name),
            Operation::Verify { secret } => self.put_octets(secret.as_slice()),
            _ => {}
        }
    }
}

// Whether an operation has a data field to be written.
pub(crate) fn has_field(operation: &Operation) -> bool
    ensures { result ≡ false → spelling.field_of operation.now ≡ [] }
{
    !matches!(
        operation,
        Operation::OpenCursor
            | Operation::Next
            | Operation::Fetch
            | Operation::FetchNext
            | Operation::Delete
            | Operation::Begin
            | Operation::Commit
            | Operation::Rollback
            | Operation::OpenChannel { .. }
            | Operation::CloseChannel { .. }
            | Operation::GetResponse
    )
}
