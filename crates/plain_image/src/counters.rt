// The counters that are found in the slots of a store.
ghost use Rattle.std.specs.Prelude.{List, ℕ};
ghost use Rattle.eeprom.specs.Slots.{put_in_order};
ghost use Rattle.scql_model.specs.Opens.{counter_stamp};
ghost use Rattle.scql_model.specs.Records.{counter_in};
ghost use Rattle.plain_image.specs.Found.{AreCounters, put_found};

use catalog_codec::{Counter, Record};

/// None, one with the next stamp, or more of them.
#[derive(Clone, Copy)]
pub(crate) enum Counters {
    Missing,
    Single { next: u32 },
    Several,
}

impl Counters {
    /// These, and one more where the octets of a record are those of a counter.
    pub(crate) fn and_of(self, octets: &[u8]) -> Counters
        ensures { (found : List ℕ) → AreCounters self found → AreCounters result (put_found counter_stamp (counter_in octets.now) found) }
    {
        match Counter::decode(octets) {
            Some(counter) => self.and(counter.next),
            None => self,
        }
    }

    // These and one more.
    fn and(self, next: u32) -> Counters
        ensures { (found : List ℕ) → AreCounters self found → AreCounters result (put_in_order counter_stamp next found) }
    {
        match self {
            Counters::Missing => Counters::Single { next },
            Counters::Single { .. } | Counters::Several => Counters::Several,
        }
    }
}
