// The row at which a cursor stands, and the columns of its table.
ghost use Rattle.std.specs.Prelude.{◌≡◌, Some, true, IfSome, length, option_copied};
ghost use Rattle.scql_base.specs.declared.records.Object as records;
ghost use Rattle.scql_model.specs.Cursors.{IsCursorOf};
ghost use Rattle.scql_model.specs.Defining.{is_table_or_view};
ghost use Rattle.scql_model.specs.Moves as moves;
ghost use Rattle.scql_model.specs.Objects.{object_stamped};
ghost use Rattle.scql_model.specs.Writing as writing;
ghost use Rattle.plain_database.specs.Sought.{IsRowOf};

use crate::columns::columns_stored;
use crate::{Sought, ValidDatabase};
use scql_base::{Cursor, NameList, Place, RowRecord};

impl<'a> ValidDatabase<'a> {
    /// The record of the row at which a cursor over a table or a view stands, where the cursor shows it.
    pub(crate) fn record_at(&self, cursor: &Cursor) -> Option<&'a RowRecord>
        requires cursor { IsCursorOf self.now cursor.now }
        requires there { (o : records.Object) × (object_stamped self.now.objects cursor.now.object ≡ Some o) × (is_table_or_view o.kind ≡ true) }
        ensures at { option_copied result ≡ writing.record_at_cursor self.now cursor.now }
        ensures among { IfSome (option_copied result) (IsRowOf self.now) }
    {
        let Place::At { stamp } = cursor.place else {
            return None;
        };
        // In a valid database each table and each view is resolved.
        let _valid = self.database();
        let resolved = self.resolved(cursor.object)?;
        self.find_record(&resolved, cursor, Sought::At { stamp })
    }

    /// The columns of the table of a row.
    pub(crate) fn columns_of_row(&self, row: &RowRecord) -> Option<&'a NameList>
        requires { IsRowOf self.now row.now }
        ensures columns { option_copied result ≡ Some (writing.columns_of_row self.now row.now) }
        ensures many { length (writing.columns_of_row self.now row.now) ≡ length row.now.row }
    {
        // In a valid database each row has its table.
        let _valid = self.database();
        columns_stored(&self.object_stamped(row.table)?.kind)
    }
}

/// Whether a cursor was opened.
pub fn is_opened(place: Place) -> bool
    ensures { result ≡ moves.is_opened place }
{
    match place {
        Place::NotOpen => false,
        Place::At { .. } | Place::End => true,
    }
}
