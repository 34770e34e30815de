// INSERT.
ghost use Rattle.std.specs.Prelude.{◌≡◌};
ghost use Rattle.scql_model.specs.Writing.{row_inserted};
ghost use Rattle.plain_database.specs.Changes.{edits_decided};

use crate::change::Change;
use crate::{PlainDatabase, Privilege};
use scql_base::{Actor, Copied, Name, ObjectKind, Row, RowRecord, StatusWord};

impl PlainDatabase {
    /// What INSERT changes: a row is added behind all others of a table.
    #[tactic(auto, unfolding(scql_model::specs::Writing::row_inserted))]
    pub(crate) fn row_inserted(
        &self,
        actor: Actor,
        table: &Name,
        row: &Row,
    ) -> Result<Change, StatusWord>
        ensures { edits_decided self.now result ≡ row_inserted self.now actor table.now row.now }
    {
        let Some(object) = self.seen_named(actor, table) else {
            return Err(StatusWord::NOT_FOUND);
        };
        let ObjectKind::Table { columns } = &object.kind else {
            return Err(StatusWord::NOT_FOUND);
        };
        if !self.holds(actor, object, Privilege::Insert) {
            return Err(StatusWord::SECURITY_NOT_SATISFIED);
        }
        if row.len() != columns.len() {
            return Err(StatusWord::WRONG_DATA);
        }
        let row = RowRecord {
            stamp: self.next(),
            table: object.stamp,
            row: row.copy(),
        };
        Ok(Change::AddRow { row })
    }
}
