// Records whose stamps rise. A search for one by its stamp halves what is left at each turn.
ghost use Rattle.std.specs.Prelude.{ℕ, ◌≡◌, ◌<◌, IfSome, length, option_copied};
ghost use Rattle.std.specs.List.{find, position};
ghost use Rattle.eeprom.specs.Slots.{Rises, has};
ghost use Rattle.plain_database.specs.Rising.{Rises-prop};

use scql_base::{Grant, Object, RowRecord, User};

/// A record that has a stamp.
pub trait Stamped: Drop {
    /// The number of its stamp.
    ghost stamp_of: { Self → ℕ };

    /// Its stamp.
    fn stamp(&self) -> u32
        ensures { result ≡ stamp_of self.now };
}

impl Stamped for User {
    ghost stamp_of = { λ user. user.stamp };

    fn stamp(&self) -> u32 {
        self.stamp
    }
}

impl Stamped for Object {
    ghost stamp_of = { λ object. object.stamp };

    fn stamp(&self) -> u32 {
        self.stamp
    }
}

impl Stamped for Grant {
    ghost stamp_of = { λ grant. grant.stamp };

    fn stamp(&self) -> u32 {
        self.stamp
    }
}

impl Stamped for RowRecord {
    ghost stamp_of = { λ row. row.stamp };

    fn stamp(&self) -> u32 {
        self.stamp
    }
}

/// Records whose stamps rise.
#[derive(Drop)]
pub struct Rising<'a, R: Stamped> {
    pub records: &'a [R],
    pub ghost rises: { Rises R.stamp_of records.now } by { Rises-prop R.stamp_of records.now },
}

impl<'a, R: Stamped> Rising<'a, R> {
    /// The place of the record of a stamp.
    pub(crate) fn place_of(&self, stamp: u32) -> Option<usize>
        ensures place { result ≡ position (has R.stamp_of stamp) self.now.records.now }
        ensures within { IfSome result (λ at. at < length self.now.records.now) }
    {
        self.records
            .binary_search_by_key(&stamp, |record| record.stamp())
            .ok()
    }

    /// The record of a stamp.
    pub(crate) fn find(&self, stamp: u32) -> Option<&'a R>
        ensures { option_copied result ≡ find (has R.stamp_of stamp) self.now.records.now }
    {
        let records = self.records;
        let place = self.place_of(stamp)?;
        Some(&records[place])
    }
}
