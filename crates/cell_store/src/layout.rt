// The octets of a cell: the number of the next one, and a piece of payload. Lengths are in octets.
ghost use Rattle.std.specs.Prelude.{◌≡◌, ◌+◌, ◌*◌};
ghost use Rattle.eeprom.specs.StoreOf.{two_octets};

use eeprom::{CELL_SIZE, LONGEST_CHAIN, PIECE_SIZE};

/// The octets of the number of the next cell.
pub const LINK_SIZE: usize = 2;

/// The payload of the longest chain.
pub const LARGEST_PAYLOAD: usize = PIECE_SIZE * LONGEST_CHAIN as usize;

/// The octets of the cells of the longest chain.
pub const LARGEST_RUN: usize = CELL_SIZE * LONGEST_CHAIN as usize;

/// The number of two octets.
pub fn number_of(high: u8, low: u8) -> u16
    ensures number { result ≡ 256 * high + low }
{
    u16::from_be_bytes([high, low])
}

/// The two octets of a number.
pub fn octets_of(number: u16) -> [u8; 2]
    ensures octets { result ≡ two_octets number }
{
    number.to_be_bytes()
}
