// A change of records, and how it is made.
ghost use Rattle.std.specs.Prelude.{◌∷◌, []};
ghost use Rattle.scql_model.specs.Database.{IsValid};
ghost use Rattle.scql_model.specs.Edits.{changing, of_row, with_edits};
ghost use Rattle.plain_database.specs.Changes.{edits_for};
ghost use Rattle.plain_database.specs.Effects.{EndsAsMeant};

use crate::record::Record;
use crate::replacing::replace;
use crate::{PlainDatabase, Rising};
use scql_base::{Grant, Object, RowRecord, StatusWord, User};

/// What a command makes of a database's records. A change names whole records, as the edits of the model do.
#[derive(Drop)]
pub(crate) enum Change {
    /// A record is added behind all others of its kind.
    AddUser { user: User },
    AddObject { object: Object },
    AddGrant { grant: Grant },
    AddRow { row: RowRecord },
    /// A grant takes the place of the one that has its stamp.
    ChangeGrant { grant: Grant },
    /// A row takes the place of the one that has its stamp.
    ChangeRow { row: RowRecord },
    /// A user goes, and the grants to it.
    RemoveUser { user: User },
    /// A view or a dictionary goes, and the grants on it.
    RemoveObject { object: Object },
    /// A table goes, and the grants on it and its rows.
    RemoveTable { table: Object },
    /// A grant goes.
    RemoveGrant { grant: Grant },
    /// A row goes.
    RemoveRow { row: RowRecord },
}

impl PlainDatabase {
    /// Makes a change, where there is room for it.
    pub(crate) fn make(&mut self, change: Change) -> Result<(), StatusWord>
        requires { IsValid self.old }
        ensures { EndsAsMeant self.old self.new result (with_edits self.old (edits_for self.old change)) }
    {
        match change {
            Change::AddUser { user } => self.add_user(user),
            Change::AddObject { object } => self.add_object(object),
            Change::AddGrant { grant } => self.add_grant(grant),
            Change::AddRow { row } => self.add_row(row),
            Change::ChangeGrant { grant } => {
                replace(&mut self.grants, grant);
                Ok(())
            }
            Change::ChangeRow { row } => self.change_row(row),
            Change::RemoveUser { user } => {
                let stamp = user.stamp;
                self.users.retain(|user| user.stamp != stamp);
                self.grants.retain(|grant| grant.grantee != stamp);
                Ok(())
            }
            Change::RemoveObject { object } => {
                let stamp = object.stamp;
                self.objects.retain(|object| object.stamp != stamp);
                self.grants.retain(|grant| grant.object != stamp);
                Ok(())
            }
            Change::RemoveTable { table } => {
                let stamp = table.stamp;
                self.objects.retain(|object| object.stamp != stamp);
                self.grants.retain(|grant| grant.object != stamp);
                self.rows.retain(|row| row.table != stamp);
                Ok(())
            }
            Change::RemoveGrant { grant } => {
                let stamp = grant.stamp;
                self.grants.retain(|grant| grant.stamp != stamp);
                Ok(())
            }
            Change::RemoveRow { row } => {
                let stamp = row.stamp;
                self.rows.retain(|row| row.stamp != stamp);
                Ok(())
            }
        }
    }

    // A row takes the place of the one that has its stamp, where there is room for it.
    fn change_row(&mut self, row: RowRecord) -> Result<(), StatusWord>
        requires { IsValid self.old }
        ensures { EndsAsMeant self.old self.new result (with_edits self.old (changing (of_row row) ∷ [])) }
    {
        let weight = self.weight();
        let rows = Rising {
            records: &self.rows,
        };
        match rows.place_of(row.stamp) {
            Some(at) => {
                if weight - self.rows[at].cells() + row.cells() > u32::from(self.cells) {
                    return Err(StatusWord::NO_SPACE);
                }
                self.rows[at] = row;
                Ok(())
            }
            None => Ok(()),
        }
    }
}
