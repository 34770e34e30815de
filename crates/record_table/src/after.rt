// The next record of a kind, whichever it is. The card doesn't go this way: a dictionary asks for records that are wanted, and a cursor goes by the index of rows.
ghost use Rattle.record_table.specs.Searching.{FindsNext};

use crate::{Any, next_by};
use catalog_codec::Record;
use eeprom::{Eeprom, EepromFault};
use record_store::{Found, SideReader};

/// The record of the least greater stamp.
pub fn next_after<R: Record, B: Eeprom>(
    reader: &mut SideReader<'_, '_, B>,
    stamp: u32,
) -> Result<Option<Found<R>>, EepromFault>
    ensures { FindsNext R.kind stamp (λ records. records) reader.old reader.new result }
{
    next_by(reader, stamp, &Any)
}
