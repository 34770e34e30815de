// How many octets records have, and how many cells these take.
ghost use Rattle.std.specs.Prelude.{◌<◌, length};
ghost use Rattle.eeprom.specs.StoreOf as image;
ghost use Rattle.scql_model.specs.Records as records;
ghost use Rattle.plain_database.specs.Within.{IsAtMost};

use eeprom::PIECE_SIZE;
use scql_base::{Conditions, NameList, Object, ObjectKind};

/// How many cells a record of so many octets takes, with the two of its length.
pub(crate) fn cells_for(octets: usize) -> u32
    requires { octets < 65536 }
    ensures { IsAtMost 65535 result (image.cells_for octets) }
{
    ((octets + 31) / PIECE_SIZE) as u32
}

/// How many octets the record of an object has.
pub(crate) fn object_size(object: &Object) -> usize
    ensures { IsAtMost 65535 result (length (records.object_spelling object.now)) }
{
    let name = object.name.octets().len();
    match &object.kind {
        ObjectKind::Table { columns } => 10 + name + columns_size(columns),
        ObjectKind::View {
            columns,
            conditions,
            ..
        } => 14 + name + columns_size(columns) + conditions_size(conditions),
        ObjectKind::Dictionary { .. } => 11 + name,
    }
}

// How many octets columns have in a record: one that counts them, and each name with its length.
fn columns_size(columns: &NameList) -> usize
    ensures { IsAtMost 1024 result (length (records.columns.spell columns.now)) }
{
    let columns = columns.as_slice();
    let mut size = 1;
    for column in columns {
        size += 1 + column.octets().len();
    }
    size
}

// How many octets conditions have in a record: one that counts them, and each name and value with its length and its comparison.
fn conditions_size(conditions: &Conditions) -> usize
    ensures { IsAtMost 4096 result (length (records.conditions.spell conditions.now)) }
{
    let conditions = conditions.as_slice();
    let mut size = 1;
    for condition in conditions {
        size += 3 + condition.column.octets().len() + condition.value.as_slice().len();
    }
    size
}
