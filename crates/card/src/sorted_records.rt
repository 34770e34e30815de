// The records of a card while it is opened, in rising order of their stamps.
ghost use Rattle.std.specs.Prelude.{◌≡◌, ◌==◌, ◌<◌, None, IfSome, get_or, length};
ghost use Rattle.std.specs.List.{find};
ghost use Rattle.std.specs.List.Sorted.{IsPermutation};
ghost use Rattle.eeprom.specs.Slots.{AreApart, Rises};
ghost use Rattle.card.specs.KeptRecords.{stamp_of};
ghost use Rattle.card.specs.declared.kept_record.KeptRecord as kept;

use crate::kept_records::KeptRecords;
use crate::spelled_record::SpelledRecord;
use std::marker::Model;

/// Records of which each has a stamp below that of the next.
#[derive(Drop)]
pub(crate) struct SortedRecords {
    records: KeptRecords,
}

impl Model for SortedRecords {
    ghost use Rattle.eeprom.specs.Slots.{Rises};
    ghost use Rattle.card.specs.KeptRecords.{stamp_of};
    ghost use Rattle.card.specs.Pool.{Pool};

    ghost Value = { Pool };

    ghost view = { λ sorted. sorted.records };

    ghost invariant = { λ sorted. Rises stamp_of sorted.records.items };
}

impl SortedRecords {
    /// Puts records in the order of their stamps, where no two have the same.
    pub(crate) fn of(records: KeptRecords) -> Option<SortedRecords>
        ensures permutation { IfSome result (λ sorted. IsPermutation records.items sorted.items) }
        ensures rises { IfSome result (λ sorted. Rises stamp_of sorted.items) }
        ensures len { IfSome result (λ sorted. length sorted.items ≡ length records.items) }
        ensures none { result ≡ None → AreApart stamp_of records.items → ⊥ }
    {
        let mut records = records;
        records.sort();
        if records.do_stamps_rise() {
            Some(SortedRecords { records })
        } else {
            None
        }
    }

    /// How many records there are.
    pub(crate) fn len(&self) -> usize
        ensures { result ≡ length self.now.items }
    {
        self.records.len()
    }

    /// The record at an index.
    pub(crate) fn at(&self, index: usize) -> SpelledRecord<'_>
        requires { index < length self.now.items }
        ensures { result ≡ get_or self.now.items index result }
    {
        self.records.at(index)
    }

    /// The record of a stamp.
    pub(crate) fn find(&self, stamp: u32) -> Option<SpelledRecord<'_>>
        ensures found { result ≡ find (λ (r : kept.KeptRecord). stamp_of r == stamp) self.now.items }
        ensures rises { Rises stamp_of self.now.items }
    {
        self.records.find(stamp)
    }
}
