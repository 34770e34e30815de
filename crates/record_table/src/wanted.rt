// Which records a search looks for.
ghost use Rattle.std.specs.Prelude.{◌≡◌, Bool, true, Option, None, Some};
ghost use Rattle.record_store.specs.declared.tags.Tag.{Tag};
ghost use Rattle.record_store.specs.declared.tags.Tag.TheVariants.{Stamp};
ghost use Rattle.eeprom.specs.Slots.{has};
ghost use Rattle.record_table.specs.Tagged.{AreTagged};

use crate::Editable;
use catalog_codec::Record;
use record_store::Tag;

/// A test of records.
pub trait Wanted<R: Record> {
    /// Which records pass it.
    ghost wants: { Self → R → Bool };

    /// The tag that all of these have, where it is known.
    ghost tag_is: { Self → Option Tag } = { λ _. None };

    /// Whether a record passes it.
    fn is(&self, entry: &R) -> bool
        ensures { result ≡ wants self.now entry.now };

    /// The tag of all records that pass it, where it is known. A search reads those of this tag alone, and where none is known all of the kind.
    fn tag(&self) -> Option<Tag>
        ensures is { result ≡ tag_is self.now }
        ensures right { AreTagged R.kind (wants self.now) result };
}

/// The record of a stamp.
#[derive(Clone, Copy)]
pub struct Stamped(pub u32);

impl<R: Editable> Wanted<R> for Stamped {
    ghost wants = { λ wanted entry. has R.kind.key wanted.0 entry };

    ghost tag_is = { λ wanted. Some (Stamp wanted.0) };

    fn is(&self, entry: &R) -> bool {
        entry.stamp() == self.0
    }

    fn tag(&self) -> Option<Tag> {
        Some(Tag::Stamp(self.0))
    }
}

/// Any record.
#[derive(Clone, Copy)]
pub struct Any;

impl<R: Record> Wanted<R> for Any {
    ghost wants = { λ _ _. true };

    fn is(&self, _entry: &R) -> bool {
        true
    }

    fn tag(&self) -> Option<Tag> {
        None
    }
}
