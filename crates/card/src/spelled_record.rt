// A record of a card as its octets, which are read where the record is needed.
ghost use Rattle.std.specs.Prelude.{◌≡◌};
ghost use Rattle.card.specs.KeptRecords as kinds;

use catalog_codec::Record;
use row_index::RowPlace;
use scql_base::{Grant, Object, RowRecord, User};
use std::marker::Model;

/// A record as the octets of its slot, read no further than to its stamp. Who looks for a kind reads it as one of that kind.
#[derive(Drop)]
pub(crate) struct SpelledRecord<'a> {
    pub octets: &'a [u8],
    pub stamp: u32,
    pub slot: u16,
}

impl<'a> Model for SpelledRecord<'a> {
    ghost use Rattle.std.specs.Prelude.{◌≡◌, Some};
    ghost use Rattle.card.specs.KeptRecords.{stamp_of};
    ghost use Rattle.card.specs.Opening.{record_in, record_of};
    ghost use Rattle.card.specs.declared.kept_record.KeptRecord.{KeptRecord};

    ghost Value = { KeptRecord };

    ghost view = { λ r. record_of r.slot r.octets.now };

    ghost invariant = { λ r. (record_in r.slot r.octets.now ≡ Some (record_of r.slot r.octets.now)) × (r.stamp ≡ stamp_of (record_of r.slot r.octets.now)) };
}

impl<'a> SpelledRecord<'a> {
    /// Its stamp.
    pub(crate) fn stamp(&self) -> u32
        ensures { result ≡ kinds.stamp_of self.now }
    {
        self.stamp
    }

    /// The user, where it is one.
    pub(crate) fn user(&self) -> Option<User>
        ensures { result ≡ kinds.as_user self.now }
    {
        User::decode(self.octets)
    }

    /// Reads the object into a place, where it is one. Otherwise the place is empty.
    pub(crate) fn object_into(&self, place: &mut Option<Object>)
        ensures { place.new ≡ kinds.as_object self.now }
    {
        Object::read_into(self.octets, place);
    }

    /// The grant, where it is one.
    pub(crate) fn grant(&self) -> Option<Grant>
        ensures { result ≡ kinds.as_grant self.now }
    {
        Grant::decode(self.octets)
    }

    /// The row, where it is one.
    pub(crate) fn row(&self) -> Option<RowRecord>
        ensures { result ≡ kinds.as_row self.now }
    {
        RowRecord::decode(self.octets)
    }

    /// Where the row stands, where it is one.
    pub(crate) fn place(&self) -> Option<RowPlace>
        ensures { result ≡ kinds.as_place self.now }
    {
        let row = RowRecord::decode(self.octets)?;
        Some(RowPlace {
            stamp: row.stamp,
            table: row.table,
            slot: self.slot,
        })
    }
}
