// The database to which an image opens.
ghost use Rattle.std.specs.Prelude.{◌≡◌, None, IfOk, IfSome};
ghost use Rattle.scql_model.specs.Database as model;
ghost use Rattle.scql_model.specs.Opens.{Opens};

use crate::PlainStore;
use crate::filling::database_in;
use crate::validity::meets_rules;
use eeprom::Heap;
use plain_database::PlainDatabase;
use std::alloc::AllocError;

/// The database to which an image opens, where it opens to one.
pub fn open(alloc: Heap, image: &[u8]) -> Result<Option<PlainDatabase>, AllocError>
    ensures opens { IfOk result (λ found. IfSome found (Opens image.now)) }
    ensures none { IfOk result (λ found. found ≡ None → (db : model.Database) → Opens image.now db → ⊥) }
{
    let Some(store) = PlainStore::read(alloc, image)? else {
        return Ok(None);
    };
    let Some(database) = database_in(alloc, &store)? else {
        return Ok(None);
    };
    if !meets_rules(alloc, &database)? {
        return Ok(None);
    }
    Ok(Some(database))
}
