// A database, and the cursor of a session over it.
ghost use Rattle.std.specs.Prelude.{IfSome};
ghost use Rattle.scql_model.specs.Cursors.{IsCursorOf};
ghost use Rattle.plain_database.specs.CursorFacts.{cursor-prop};

use crate::ValidDatabase;
use scql_base::Cursor;

/// A valid database, and the cursor over it of the session that changes it, where there is one.
#[derive(Drop)]
pub(crate) struct AtCursor<'d, 'c> {
    pub database: ValidDatabase<'d>,
    pub cursor: &'c Option<Cursor>,
    pub ghost over: { IfSome cursor.now (IsCursorOf database) } by { cursor-prop database cursor.now },
}
