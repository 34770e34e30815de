// Changes of the records of a kind, on the working side of a transaction.
ghost use Rattle.std.specs.Prelude.{◌<◌, Some, None, IsTrue};
ghost use Rattle.record_table.specs.Changed.{Empties, IsAdded, IsBegunOver, IsChanged, Puts};

use catalog_codec::Record;
use eeprom::Eeprom;
use record_store::{RecordOctets, Store, StoreRefusal};

/// Puts a record into an empty slot, and answers which.
pub fn add<R: Record, B: Eeprom>(
    store: &mut Store,
    bench: &mut B,
    value: &R,
) -> Result<u16, StoreRefusal>
    requires open { IsBegunOver store.old (B.chip bench.old) }
    requires spelled { R.can_encode value.now }
    ensures { Puts B.chip B.faults (IsAdded R.kind value.now) None (λ slot. slot) (R.kind.form.spell value.now) bench.old bench.new store.old store.new result }
{
    let mut octets = RecordOctets::new();
    value.encode(&mut octets);
    store.put(bench, None, octets.as_slice())
}

/// Puts a record into a slot, in the place of the one that is there.
pub fn change<R: Record, B: Eeprom>(
    store: &mut Store,
    bench: &mut B,
    slot: u16,
    value: &R,
) -> Result<(), StoreRefusal>
    requires open { IsBegunOver store.old (B.chip bench.old) }
    requires slot { slot < store.old.chains.cells }
    requires spelled { R.can_encode value.now }
    ensures { Puts B.chip B.faults (λ _. IsChanged R.kind value.now slot) (Some slot) (λ _. slot) (R.kind.form.spell value.now) bench.old bench.new store.old store.new result }
{
    let mut octets = RecordOctets::new();
    value.encode(&mut octets);
    store.put(bench, Some(slot), octets.as_slice())?;
    Ok(())
}

/// Takes the record out of a slot.
pub fn remove(store: &mut Store, slot: u16)
    requires begun { IsTrue store.old.begun }
    requires slot { slot < store.old.chains.cells }
    ensures { Empties slot store.old store.new }
{
    store.remove(slot);
}
