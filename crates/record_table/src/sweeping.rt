// All records of a kind that are wanted are removed, in one pass over the slots.
ghost use Rattle.std.specs.Prelude.{◌<◌, ◌==◌, ◌&&◌, None, cond, count_by, slice_index_or, slice_set};
ghost use Rattle.record_table.specs.Changed.{IsBegunOver};
ghost use Rattle.record_table.specs.Swept.{all_without, has_passing, without_passing, Sweeps};

use crate::{Wanted, read_entry, remove};
use catalog_codec::Record;
use eeprom::{Eeprom, EepromFault};
use record_store::{RecordOctets, Side, SideReader, Store};

/// Removes each record of the kind that is wanted.
pub fn remove_each<R: Record, W: Wanted<R>, B: Eeprom>(
    store: &mut Store,
    bench: &mut B,
    wanted: &W,
) -> Result<(), EepromFault>
    requires open { IsBegunOver store.old (B.chip bench.old) }
    ensures { Sweeps B.chip B.faults (all_without R.kind (W.wants wanted.now)) (λ slots slot. has_passing R.kind (W.wants wanted.now) (slice_index_or slots slot None)) (count_by (has_passing R.kind (W.wants wanted.now))) bench.old bench.new store.old store.new result }
{
    let mut octets = RecordOctets::new();
    for slot in 0..store.slots_in_use() {
        remove_wanted(store, bench, slot, wanted, &mut octets)?;
    }
    Ok(())
}

// Removes the record of one slot, if it is of the kind and wanted. It is read into `octets`.
fn remove_wanted<R: Record, W: Wanted<R>, B: Eeprom>(
    store: &mut Store,
    bench: &mut B,
    slot: u16,
    wanted: &W,
    octets: &mut RecordOctets,
) -> Result<(), EepromFault>
    requires open { IsBegunOver store.old (B.chip bench.old) }
    requires slot { slot < store.old.chains.cells }
    ensures { Sweeps B.chip B.faults (λ slots. slice_set slots slot (without_passing R.kind (W.wants wanted.now) (slice_index_or slots slot None))) (λ slots other. other == slot && has_passing R.kind (W.wants wanted.now) (slice_index_or slots slot None))
        (λ slots. cond (has_passing R.kind (W.wants wanted.now) (slice_index_or slots slot None)) 1 0) bench.old bench.new store.old store.new result }
{
    let mut reader = SideReader {
        store: &*store,
        bench: &mut *bench,
        side: Side::Working,
    };
    if let Some(entry) = read_entry::<R, B>(&mut reader, slot, octets)? {
        if wanted.is(&entry) {
            remove(store, slot);
        }
    }
    Ok(())
}
