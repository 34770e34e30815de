// An EEPROM with room for an image of so many cells.
ghost use Rattle.eeprom.specs.Calls.{FitsInto};
ghost use Rattle.eeprom.specs.CallsLaws.{FitsInto-prop};

use crate::Eeprom;

/// An EEPROM, and the number of cells of an image for which it has room.
#[derive(Drop)]
pub struct ImageBench<'b, B: Eeprom> {
    pub bench: &'b mut B,
    pub cells: u16,
    pub ghost fits: { FitsInto cells (B.chip bench.now) } by { FitsInto-prop cells (B.chip bench.now) },
}
