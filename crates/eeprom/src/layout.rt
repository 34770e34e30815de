// Where an image has its parts, and how many it has of them: each number once. Places and lengths are in octets.
ghost use Rattle.std.specs.Prelude.{◌≡◌, ◌+◌, ◌*◌};
ghost use Rattle.eeprom.specs.StoreOf as image;

/// How many cells a card has at least and at most.
pub const FEWEST_CELLS: u16 = 16;

pub const MOST_CELLS: u16 = 2048;

/// How many octets stand before the directory of an image.
pub const HEADER_SIZE: usize = 32;

/// Where the gate is.
pub const GATE_PLACE: usize = 8;

/// How many octets the largest directory has.
pub const LARGEST_DIRECTORY: usize = 2 * MOST_CELLS as usize;

/// What a directory or a cell says where no cell comes.
pub const NO_CELL: u16 = 65535;

/// The octets of a cell, and how many of them are payload.
pub const CELL_SIZE: usize = 32;

pub const PIECE_SIZE: usize = 30;

/// How many octets a record has at most, and how many cells its chain.
pub const LONGEST_RECORD: usize = 1029;

pub const LONGEST_CHAIN: u16 = ((LONGEST_RECORD + 31) / PIECE_SIZE) as u16;

/// How many octets a row may have on a card that wasn't migrated, and on one that was.
pub const ROW_LIMIT: u16 = 240;

pub const MIGRATED_ROW_LIMIT: u16 = 1020;

/// Where the journal begins, with the number of its entries.
pub fn journal_place(cells: u16) -> usize
    ensures { result ≡ image.journal_place cells }
{
    HEADER_SIZE + 2 * cells as usize
}

/// How many octets stand before the cells: header, directory and journal, with room for an entry of each slot.
pub fn front_size(cells: u16) -> usize
    ensures { result ≡ image.front_size cells }
{
    journal_place(cells) + 2 + 4 * cells as usize
}

/// Where a cell begins.
pub fn cell_place(cells: u16, cell: u16) -> usize
    ensures { result ≡ image.cell_place cells cell }
{
    front_size(cells) + CELL_SIZE * cell as usize
}

/// How many octets an image of so many cells has at least.
pub fn image_size(cells: u16) -> usize
    ensures { result ≡ image.image_size cells }
{
    front_size(cells) + 2 * CELL_SIZE * cells as usize
}
