// The next record of a kind behind a stamp.
ghost use Rattle.std.specs.Prelude.{◌≡◌, ◌⊎◌, Some, option_map, filter};
ghost use Rattle.eeprom.specs.Slots.{above, nearer};
ghost use Rattle.record_table.specs.Searching.{FindsNext};

use crate::Wanted;
use crate::entry::{next_slot, read_entry};
use catalog_codec::Record;
use eeprom::{Eeprom, EepromFault};
use record_store::{Found, RecordOctets, SideReader};

/// Of the records that are wanted, the one of the least greater stamp.
pub fn next_by<R: Record, W: Wanted<R>, B: Eeprom>(
    reader: &mut SideReader<'_, '_, B>,
    stamp: u32,
    wanted: &W,
) -> Result<Option<Found<R>>, EepromFault>
    ensures { FindsNext R.kind stamp (filter (W.wants wanted.now)) reader.old reader.new result }
{
    let mut octets = RecordOctets::new();
    let mut nearest: Option<Found<R>> = None;
    let store = reader.store;
    let end = store.slots_in_use();
    let mut slot = next_slot::<R>(store, 0);
    while slot < end {
        if let Some(value) = read_entry(reader, slot, &mut octets)? {
            if wanted.is(&value) {
                nearest = nearer_of(nearest, Found { slot, value }, stamp);
            }
        }
        slot = next_slot::<R>(store, slot + 1);
    }
    Ok(nearest)
}

// Of the nearest record so far and one more, the one of the least stamp above a stamp.
fn nearer_of<R: Record>(nearest: Option<Found<R>>, found: Found<R>, stamp: u32) -> Option<Found<R>>
    ensures nearer { option_map (λ found. found.value) result
        ≡ nearer R.kind.key (option_map (λ found. found.value) nearest) (above R.kind.key stamp found.value) }
    ensures either { (result ≡ nearest) ⊎ (result ≡ Some found) }
{
    if found.value.stamp() <= stamp {
        return nearest;
    }
    match nearest {
        Some(near) => {
            if found.value.stamp() < near.value.stamp() {
                Some(found)
            } else {
                Some(near)
            }
        }
        None => Some(found),
    }
}
