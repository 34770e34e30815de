// What an image begins with.
ghost use Rattle.std.specs.Prelude.{◌≡◌, ◌&&◌};
ghost use Rattle.eeprom.specs.StoreOf as image;

use crate::octets::{number_at, octet_at};
use eeprom::{FEWEST_CELLS, MIGRATED_ROW_LIMIT, MOST_CELLS, ROW_LIMIT, image_size};

/// Where the header has the format, the version, the number of cells, and the limit of rows once more.
const FORMAT_PLACE: usize = 4;

const VERSION_PLACE: usize = 5;

const CELLS_PLACE: usize = 6;

const LIMIT_PLACE: usize = 9;

/// The format of a store.
const FORMAT: u8 = 2;

/// Whether an image begins as a store does, and has room for its cells.
pub(crate) fn begins_store(octets: &[u8]) -> bool
    ensures { result ≡ (image.starts_with_magic octets.now && image.has_header octets.now) }
{
    matches!(octets, [b'S', b'C', b'Q', b'L', ..]) && has_header(octets)
}

/// The number of cells.
pub(crate) fn cells_of(octets: &[u8]) -> u16
    ensures { result ≡ image.number_at octets.now 6 }
{
    number_at(octets, CELLS_PLACE)
}

/// How many octets a row may have.
pub(crate) fn row_limit(octets: &[u8]) -> u16
    ensures { result ≡ image.row_limit octets.now }
{
    if octet_at(octets, VERSION_PLACE) % 2 == 0 {
        ROW_LIMIT
    } else {
        MIGRATED_ROW_LIMIT
    }
}

// Whether the format, the version, the number of cells and the size are those of a store.
fn has_header(octets: &[u8]) -> bool
    ensures { result ≡ image.has_header octets.now }
{
    let cells = cells_of(octets);
    octet_at(octets, FORMAT_PLACE) == FORMAT
        && has_version(octets)
        && FEWEST_CELLS <= cells
        && cells <= MOST_CELLS
        && image_size(cells) <= octets.len()
}

// Whether the version is even, or odd with the limit of a migrated card's rows.
fn has_version(octets: &[u8]) -> bool
    ensures { result ≡ image.has_version octets.now }
{
    octet_at(octets, VERSION_PLACE) % 2 == 0
        || octet_at(octets, LIMIT_PLACE) == 0x03 && octet_at(octets, LIMIT_PLACE + 1) == 0xFC
}
