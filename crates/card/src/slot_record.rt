// The record in a slot, as a card is opened.
ghost use Rattle.std.specs.Prelude.{◌≡◌, ℕ, None, Some, true, false, option_map, IfSome};
ghost use Rattle.scql_model.specs.Records.{counter_in, row_in};
ghost use Rattle.card.specs.KeptRecords.{stamp_of};
ghost use Rattle.card.specs.Opening.{is_admitted, record_in};
ghost use Rattle.card.specs.SlotRecord.{counter_of, other_of};

use crate::spelled_record::SpelledRecord;
use catalog_codec::{Counter, Record};
use scql_base::{Grant, Object, RowRecord, User};

/// The stamp that the counter gives next, or another record.
#[derive(Drop)]
pub(crate) enum SlotRecord<'a> {
    Counter(u32),
    Other(SpelledRecord<'a>),
}

impl<'a> SlotRecord<'a> {
    /// What the octets of a slot are, where they are the record of some kind within its limits, and within those of a card with this row limit.
    pub(crate) fn read(octets: &'a [u8], slot: u16, row_limit: u16) -> Option<SlotRecord<'a>>
        ensures admitted { IfSome result (λ found. is_admitted row_limit (Some octets.now) ≡ true) }
        ensures counter { IfSome result (λ found. counter_in octets.now ≡ counter_of found) }
        ensures other { IfSome result (λ found. record_in slot octets.now ≡ other_of found) }
        ensures refused { result ≡ None → is_admitted row_limit (Some octets.now) ≡ false }
    {
        if let Some(counter) = Counter::decode(octets) {
            return Some(SlotRecord::Counter(counter.next));
        }
        let stamp = stamp_of_other(octets, row_limit)?;
        Some(SlotRecord::Other(SpelledRecord {
            octets,
            stamp,
            slot,
        }))
    }
}

// The stamp of the record whose spelling the octets of a slot are, where that isn't the counter.
fn stamp_of_other(octets: &[u8], row_limit: u16) -> Option<u32>
    requires other { counter_in octets.now ≡ None }
    ensures admitted { IfSome result (λ stamp. is_admitted row_limit (Some octets.now) ≡ true) }
    ensures stamp { IfSome result (λ stamp. (slot : ℕ) → option_map stamp_of (record_in slot octets.now) ≡ Some stamp) }
    ensures refused { result ≡ None → is_admitted row_limit (Some octets.now) ≡ false }
{
    match RowRecord::decode(octets) {
        Some(row) if row.row.size() > row_limit as usize => None,
        Some(row) => Some(row.stamp),
        None => stamp_of_no_row(octets),
    }
}

// The same of what is no row. It isn't inlined, so that a row doesn't pay for its places.
#[inline(never)]
fn stamp_of_no_row(octets: &[u8]) -> Option<u32>
    requires other { counter_in octets.now ≡ None }
    requires no_row { row_in octets.now ≡ None }
    ensures admitted { IfSome result (λ stamp. (limit : ℕ) → is_admitted limit (Some octets.now) ≡ true) }
    ensures stamp { IfSome result (λ stamp. (slot : ℕ) → option_map stamp_of (record_in slot octets.now) ≡ Some stamp) }
    ensures refused { result ≡ None → (limit : ℕ) → is_admitted limit (Some octets.now) ≡ false }
{
    if let Some(user) = User::decode(octets) {
        return Some(user.stamp);
    }
    if let Some(object) = Object::decode(octets) {
        if octets.len() > Object::LONGEST {
            return None;
        }
        return Some(object.stamp);
    }
    let grant = Grant::decode(octets)?;
    Some(grant.stamp)
}
