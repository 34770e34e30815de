// Commands that change a database.
ghost use Rattle.std.specs.Prelude.{◌≡◌};
ghost use Rattle.scql_model.specs.Changing.{edits_of};
ghost use Rattle.plain_database.specs.Changed.{IsCarriedOut, MayChange};
ghost use Rattle.plain_database.specs.Changes.{edits_decided};

use crate::PlainDatabase;
use crate::at_cursor::AtCursor;
use crate::change::Change;
use scql_base::{Actor, Copied, Cursor, ObjectKind, Operation, StatusWord};

impl PlainDatabase {
    /// Carries out a changing command for an actor, or refuses it. UPDATE and DELETE are of the row at the cursor. No other operation
    /// is a changing command.
    pub fn change(
        &mut self,
        actor: Actor,
        cursor: &Option<Cursor>,
        operation: &Operation,
    ) -> Result<(), StatusWord>
        requires { MayChange self.old cursor.now }
        ensures { IsCarriedOut self.old self.new actor cursor.now operation.now result }
    {
        let at = AtCursor {
            database: self.as_valid(),
            cursor,
        };
        let change = at.decided(actor, operation)?;
        self.make(change)
    }
}

impl<'d, 'c> AtCursor<'d, 'c> {
    // The change that a changing command asks for, or why it is refused. Each is decided by its own function.
    #[tactic(auto, unfolding(scql_model::specs::Changing::edits_of))]
    fn decided(&self, actor: Actor, operation: &Operation) -> Result<Change, StatusWord>
        ensures { edits_decided self.now.database result ≡ edits_of self.now.database actor self.now.cursor.now operation.now }
    {
        let database = self.database.database();
        match operation {
            Operation::CreateTable { name, columns } => {
                let columns = columns.copy();
                database.object_created(actor, name, ObjectKind::Table { columns })
            }
            Operation::CreateView {
                name,
                base,
                columns,
                conditions,
            } => self
                .database
                .view_created(actor, name, base, columns, conditions),
            Operation::CreateDictionary { name, subject } => {
                database.object_created(actor, name, ObjectKind::Dictionary { subject: *subject })
            }
            Operation::DropTable { name } => database.table_dropped(actor, name),
            Operation::DropView { name } => database.view_dropped(actor, name),
            Operation::Grant {
                privileges,
                object,
                grantee,
            } => database.privileges_granted(actor, *privileges, object, grantee),
            Operation::Revoke {
                privileges,
                object,
                grantee,
            } => database.privileges_revoked(actor, *privileges, object, grantee),
            Operation::Insert { table, row } => database.row_inserted(actor, table, row),
            Operation::Update { changes } => self.row_updated(actor, changes),
            Operation::Delete => self.row_deleted(actor),
            Operation::CreateUser {
                name,
                profile,
                secret,
            } => database.user_added(actor, name, *profile, secret),
            Operation::DeleteUser { name } => database.user_deleted(actor, name),
            _ => Err(StatusWord::INSTRUCTION_NOT_SUPPORTED),
        }
    }
}
