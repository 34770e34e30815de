// Searches among the records of a kind.
ghost use Rattle.std.specs.Prelude.{◌≡◌, None, false, if◌then◌else◌};
ghost use Rattle.std.specs.Option.{option_map_or};
ghost use Rattle.record_table.specs.Searching.{Finds, FindsInto, FindsStamp, FindsStampInto};

use crate::entry::{next_tagged, read_into};
use crate::{Editable, Stamped, Wanted};
use catalog_codec::Record;
use eeprom::{Eeprom, EepromFault};
use record_store::{Found, RecordOctets, SideReader};

/// Finds a record of the kind that is wanted, where there is one: that of the lowest slot. Where there is one at most, it is the one that the list has.
pub fn find_by<R: Record, W: Wanted<R>, B: Eeprom>(
    reader: &mut SideReader<'_, '_, B>,
    wanted: &W,
) -> Result<Option<Found<R>>, EepromFault>
    ensures { Finds R.kind (W.wants wanted.now) (W.tag_is wanted.now) reader.old reader.new result }
{
    let mut place = None;
    let Some(slot) = find_into(reader, wanted, &mut place)? else {
        return Ok(None);
    };
    let Some(value) = place else {
        return Ok(None);
    };
    Ok(Some(Found { slot, value }))
}

/// Finds a record of the kind that is wanted and reads it into a place, where there is one: that of the lowest slot, which is answered.
/// Where there is none the place is empty.
pub fn find_into<R: Record, W: Wanted<R>, B: Eeprom>(
    reader: &mut SideReader<'_, '_, B>,
    wanted: &W,
    place: &mut Option<R>,
) -> Result<Option<u16>, EepromFault>
    ensures { FindsInto R.kind (W.wants wanted.now) (W.tag_is wanted.now) reader.old reader.new place.new result }
{
    let mut octets = RecordOctets::new();
    let (store, side) = (reader.store, reader.side);
    let end = store.slots_in_use();
    let tag = wanted.tag();
    let mut slot = next_tagged::<R>(store, side, tag, 0);
    while slot < end {
        let read = read_into(reader, slot, &mut octets, place)?;
        if has_wanted(wanted, read, place) {
            return Ok(Some(slot));
        }
        slot = next_tagged::<R>(store, side, tag, slot + 1);
    }
    *place = None;
    Ok(None)
}

// Whether a record that is wanted was read into a place.
fn has_wanted<R: Record, W: Wanted<R>>(wanted: &W, read: bool, place: &Option<R>) -> bool
    ensures { result ≡ option_map_or (W.wants wanted.now) (if read then place.now else None) false }
{
    match place {
        Some(value) if read => wanted.is(value),
        _ => false,
    }
}

/// Finds the record of a stamp.
pub fn find_stamp<R: Editable, B: Eeprom>(
    reader: &mut SideReader<'_, '_, B>,
    stamp: u32,
) -> Result<Option<Found<R>>, EepromFault>
    ensures { FindsStamp R.kind stamp reader.old reader.new result }
{
    find_by(reader, &Stamped(stamp))
}

/// Finds the record of a stamp and reads it into a place, where there is one: its slot is answered. Where there is none the place is empty.
pub fn find_stamp_into<R: Editable, B: Eeprom>(
    reader: &mut SideReader<'_, '_, B>,
    stamp: u32,
    place: &mut Option<R>,
) -> Result<Option<u16>, EepromFault>
    ensures { FindsStampInto R.kind stamp reader.old reader.new place.new result }
{
    find_into(reader, &Stamped(stamp), place)
}
