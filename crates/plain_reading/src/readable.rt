// Which object a cursor reads, and who may.
ghost use Rattle.std.specs.Prelude.{◌≡◌, Err, MatchResult};
ghost use Rattle.scql_model.specs.Moves as moves;
ghost use Rattle.plain_reading.specs.Found.{IsOpened, IsReadable};

use plain_database::{Privilege, ValidDatabase, is_opened};
use scql_base::{Actor, Cursor, Object, StatusWord};

/// A cursor that was opened.
pub(crate) fn opened(cursor: &Option<Cursor>) -> Result<&Cursor, StatusWord>
    ensures { MatchResult result (λ c. IsOpened cursor.now c.now) (λ word. moves.opened cursor.now ≡ Err word) }
{
    match cursor {
        Some(cursor) if is_opened(cursor.place) => Ok(cursor),
        _ => Err(StatusWord::CONDITIONS_NOT_SATISFIED),
    }
}

/// The object of a cursor, where it appears to an actor, who may select from it.
pub(crate) fn readable<'a>(
    database: &ValidDatabase<'a>,
    actor: Actor,
    cursor: &Cursor,
) -> Result<&'a Object, StatusWord>
    ensures { MatchResult result (λ o. IsReadable database.now actor cursor.now o.now) (λ word. moves.rows_under database.now actor cursor.now ≡ Err word) }
{
    let records = database.database();
    match database.seen_stamped(actor, cursor.object) {
        Some(object) if records.holds(actor, object, Privilege::Select) => Ok(object),
        Some(_) => Err(StatusWord::SECURITY_NOT_SATISFIED),
        None => Err(StatusWord::NOT_FOUND),
    }
}
