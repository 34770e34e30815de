// The row that is sought among those that a cursor shows.
ghost use Rattle.std.specs.Prelude.{◌≡◌, option_map};
ghost use Rattle.scql_model.specs.Contents.{contents_of};
ghost use Rattle.scql_model.specs.Moves as moves;
ghost use Rattle.plain_database.specs.Sought.{row_shown, sought_row};
ghost use Rattle.plain_reading.specs.Found.{IsCursorOver};

use crate::dictionary::find_told;
use plain_database::{ShownRow, Sought, ValidDatabase};
use scql_base::{Cursor, Object, ObjectKind, Place};

/// The row that is sought among those that a cursor shows of its object.
pub(crate) fn find_row(
    database: &ValidDatabase<'_>,
    object: &Object,
    cursor: &Cursor,
    sought: Sought,
) -> Option<ShownRow>
    requires { IsCursorOver database.now cursor.now object.now }
    ensures { option_map row_shown result ≡ sought_row database.now cursor.now sought }
{
    match &object.kind {
        ObjectKind::Table { .. } | ObjectKind::View { .. } => {
            // In a valid database each table and each view is resolved.
            let _valid = database.database();
            let resolved = database.resolved(cursor.object)?;
            database.find_through(&resolved, cursor, sought)
        }
        ObjectKind::Dictionary { subject } => {
            find_told(database, object.owner, *subject, cursor, sought)
        }
    }
}

/// The first row behind a cursor's place. Behind the end there is none.
pub(crate) fn row_behind(
    database: &ValidDatabase<'_>,
    object: &Object,
    cursor: &Cursor,
) -> Option<ShownRow>
    requires { IsCursorOver database.now cursor.now object.now }
    ensures { option_map row_shown result ≡ moves.row_behind cursor.now.place (moves.chosen (contents_of database.now cursor.now.object) cursor.now) }
{
    match cursor.place {
        Place::At { stamp } => find_row(database, object, cursor, Sought::Behind { stamp }),
        Place::NotOpen | Place::End => None,
    }
}
