// Records that are made. Each takes the next stamp.
ghost use Rattle.scql_model.specs.Edits.{making, of_grant, of_object, of_row, of_user, with_edits};
ghost use Rattle.plain_database.specs.Effects.{EndsAsMeant};

use crate::PlainDatabase;
use crate::record::Record;
use scql_base::{Grant, Object, RowRecord, StatusWord, User};

impl PlainDatabase {
    /// Adds a user behind all others, where a stamp is left for it, and room.
    pub(crate) fn add_user(&mut self, user: User) -> Result<(), StatusWord>
        ensures { EndsAsMeant self.old self.new result (with_edits self.old (making self.old (of_user user))) }
    {
        if !self.has_room(user.cells()) {
            return Err(StatusWord::NO_SPACE);
        }
        self.next += 1;
        self.users.push_reserved(user);
        Ok(())
    }

    /// Adds an object behind all others, where a stamp is left for it, and room.
    pub(crate) fn add_object(&mut self, object: Object) -> Result<(), StatusWord>
        ensures { EndsAsMeant self.old self.new result (with_edits self.old (making self.old (of_object object))) }
    {
        if !self.has_room(object.cells()) {
            return Err(StatusWord::NO_SPACE);
        }
        self.next += 1;
        self.objects.push_reserved(object);
        Ok(())
    }

    /// Adds a grant behind all others, where a stamp is left for it, and room.
    pub(crate) fn add_grant(&mut self, grant: Grant) -> Result<(), StatusWord>
        ensures { EndsAsMeant self.old self.new result (with_edits self.old (making self.old (of_grant grant))) }
    {
        if !self.has_room(grant.cells()) {
            return Err(StatusWord::NO_SPACE);
        }
        self.next += 1;
        self.grants.push_reserved(grant);
        Ok(())
    }

    /// Adds a row behind all others, where a stamp is left for it, and room.
    pub(crate) fn add_row(&mut self, row: RowRecord) -> Result<(), StatusWord>
        ensures { EndsAsMeant self.old self.new result (with_edits self.old (making self.old (of_row row))) }
    {
        if !self.has_room(row.cells()) {
            return Err(StatusWord::NO_SPACE);
        }
        self.next += 1;
        self.rows.push_reserved(row);
        Ok(())
    }
}
