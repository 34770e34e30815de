// UPDATE and DELETE of the row at a cursor.
ghost use Rattle.std.specs.Prelude.{◌≡◌, nat_le, Some, None, if◌then◌else◌};
ghost use Rattle.scql_base.specs.Row.{row_size};
ghost use Rattle.scql_model.specs.Writing as writing;
ghost use Rattle.plain_database.specs.Changes.{edits_decided};
ghost use Rattle.plain_database.specs.Sought.{IsRowOf};

use crate::assigning::{are_changed_among, row_after};
use crate::at_cursor::AtCursor;
use crate::change::Change;
use crate::columns::{columns_stored, is_table_or_view};
use crate::reaching::is_opened;
use crate::{Privilege, ValidDatabase};
use scql_base::{Actor, Copied, PackedChanges, RowRecord, StatusWord};

impl<'d, 'c> AtCursor<'d, 'c> {
    /// What UPDATE changes: columns of the row at which a cursor stands get new values.
    #[tactic(auto, unfolding(scql_model::specs::Writing::row_updated))]
    pub(crate) fn row_updated(
        &self,
        actor: Actor,
        changes: &PackedChanges,
    ) -> Result<Change, StatusWord>
        ensures { edits_decided self.now.database result ≡ writing.row_updated self.now.database actor self.now.cursor.now changes.now }
    {
        let database = &self.database;
        let Some(cursor) = self.cursor else {
            return Err(StatusWord::CONDITIONS_NOT_SATISFIED);
        };
        if !is_opened(cursor.place) {
            return Err(StatusWord::CONDITIONS_NOT_SATISFIED);
        }
        let Some(object) = database.seen_stamped(actor, cursor.object) else {
            return Err(StatusWord::NOT_FOUND);
        };
        let Some(columns) = columns_stored(&object.kind) else {
            return Err(StatusWord::CONDITIONS_NOT_SATISFIED);
        };
        if !database.database().holds(actor, object, Privilege::Update) {
            return Err(StatusWord::SECURITY_NOT_SATISFIED);
        }
        if !are_changed_among(columns, changes) {
            return Err(StatusWord::NOT_FOUND);
        }
        let Some(row) = database.record_at(cursor) else {
            return Err(StatusWord::RECORD_NOT_FOUND);
        };
        let Some(changed) = database.changed(row, changes) else {
            return Err(StatusWord::WRONG_DATA);
        };
        Ok(Change::ChangeRow { row: changed })
    }

    /// What DELETE changes: the row at which a cursor stands goes.
    #[tactic(auto, unfolding(scql_model::specs::Writing::row_deleted))]
    pub(crate) fn row_deleted(&self, actor: Actor) -> Result<Change, StatusWord>
        ensures { edits_decided self.now.database result ≡ writing.row_deleted self.now.database actor self.now.cursor.now }
    {
        let database = &self.database;
        let Some(cursor) = self.cursor else {
            return Err(StatusWord::CONDITIONS_NOT_SATISFIED);
        };
        if !is_opened(cursor.place) {
            return Err(StatusWord::CONDITIONS_NOT_SATISFIED);
        }
        let Some(object) = database.seen_stamped(actor, cursor.object) else {
            return Err(StatusWord::NOT_FOUND);
        };
        if !is_table_or_view(&object.kind) {
            return Err(StatusWord::CONDITIONS_NOT_SATISFIED);
        }
        if !database.database().holds(actor, object, Privilege::Delete) {
            return Err(StatusWord::SECURITY_NOT_SATISFIED);
        }
        let Some(row) = database.record_at(cursor) else {
            return Err(StatusWord::RECORD_NOT_FOUND);
        };
        Ok(Change::RemoveRow { row: row.copy() })
    }
}

impl<'a> ValidDatabase<'a> {
    // A row after changes, where it is within the card's limit.
    fn changed(&self, row: &RowRecord, changes: &PackedChanges) -> Option<RowRecord>
        requires { IsRowOf self.now row.now }
        ensures { result ≡ (if nat_le (row_size (writing.row_after self.now changes.now row.now).row) self.now.limit then Some (writing.row_after self.now changes.now row.now) else None) }
    {
        let database = self.database();
        let columns = self.columns_of_row(row)?;
        let after = row_after(columns, changes, &row.row)?;
        if after.size() > usize::from(database.limit()) {
            return None;
        }
        Some(RowRecord {
            stamp: row.stamp,
            table: row.table,
            row: after,
        })
    }
}
