// Whether a database that was read is valid.
ghost use Rattle.std.specs.Prelude.{◌≡◌, ◌&&◌, IfOk};
ghost use Rattle.scql_model.specs.Database as model;
ghost use Rattle.plain_image.specs.Rules as rules;

use crate::grants::are_right_grants;
use crate::objects::are_right_objects;
use crate::rows::are_right_rows;
use crate::stamps::{are_right_stamps, push_stamps};
use crate::users::are_right_users;
use eeprom::{FEWEST_CELLS, Heap, MIGRATED_ROW_LIMIT, MOST_CELLS, ROW_LIMIT};
use plain_database::PlainDatabase;
use std::alloc::AllocError;

/// Whether the records of a database meet the rules of a valid one.
pub(crate) fn meets_rules(alloc: Heap, database: &PlainDatabase) -> Result<bool, AllocError>
    ensures { IfOk result (λ right. right ≡ rules.meets_rules database.now) }
{
    let stamps = stamps_of(alloc, database)?;
    Ok(
        has_right_numbers(database)
            && are_right_stamps(database.next(), &stamps)
            && are_right_users(database)
            && are_right_objects(database)
            && are_right_grants(database)
            && are_right_rows(database),
    )
}

// Whether the numbers of cells, of octets in a row and of the next stamp are in range.
fn has_right_numbers(database: &PlainDatabase) -> bool
    ensures { result ≡ rules.has_right_numbers database.now }
{
    let cells = database.cells();
    let limit = database.limit();
    FEWEST_CELLS <= cells
        && cells <= MOST_CELLS
        && (limit == ROW_LIMIT || limit == MIGRATED_ROW_LIMIT)
        && database.next() >= 2
}

// The stamps of all records.
fn stamps_of(alloc: Heap, database: &PlainDatabase) -> Result<Vec<u32, Heap>, AllocError>
    ensures { IfOk result (λ stamps. stamps.items ≡ rules.stamps_of_kinds database.now) }
{
    let mut stamps = Vec::new(alloc);
    push_stamps(database.users(), &mut stamps)?;
    push_stamps(database.objects(), &mut stamps)?;
    push_stamps(database.grants(), &mut stamps)?;
    push_stamps(database.rows(), &mut stamps)?;
    Ok(stamps)
}
