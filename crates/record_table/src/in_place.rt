// A record of a database changed in its place, or taken out.
ghost use Rattle.std.specs.Prelude.{◌≡◌, ◌<◌, [], ◌∷◌, Some, Ok, IsTrue, IfSome, OnOk};
ghost use Rattle.eeprom.specs.Chip.{Becomes};
ghost use Rattle.record_store.specs.declared.side.Side.TheVariants.{Working};
ghost use Rattle.scql_model.specs.Database.{Database};
ghost use Rattle.scql_model.specs.Edits.{changing};
ghost use Rattle.catalog_codec.specs.Catalog.{row_kind};
ghost use Rattle.catalog_codec.specs.Kinds.{HaveOtherMarks};
ghost use Rattle.record_table.specs.Changed.{IsBegunOver, IsChanged};
ghost use Rattle.record_table.specs.Listed.{at_slot, slots_of};
ghost use Rattle.record_table.specs.Making.{Ends, IsHeld, IsValidWith, KeepsRows};
ghost use Rattle.record_table.specs.OneRecord.{LeavesStore, TakesOut};

use crate::{Editable, Stop, change, remove};
use eeprom::Eeprom;
use record_store::Store;

/// Puts a record in the place of the one of its stamp, which the slot has. Where there is no room for it nothing is written.
pub fn change_in_place<R: Editable, B: Eeprom>(
    store: &mut Store,
    bench: &mut B,
    slot: u16,
    value: &R,
) -> Result<(), Stop>
    requires open { IsBegunOver store.old (B.chip bench.old) }
    requires spelled { R.can_encode value.now }
    requires there { slot < store.old.chains.cells }
    ensures ends { (db : Database) (was : R) → IsHeld store.old Working (B.chip bench.old) db → IfSome (slots_of store.old Working (B.chip bench.old)) (λ slots. Some was ≡ at_slot R.kind slot slots)
        → R.kind.key was ≡ R.kind.key value.now → IsValidWith db (changing (R.any value.now) ∷ [])
        → Ends db (Ok (changing (R.any value.now) ∷ [])) result store.old store.new (B.chip bench.old) (B.chip bench.new) }
    ensures changed { OnOk result (Becomes (IsChanged R.kind value.now slot) (slots_of store.old Working (B.chip bench.old)) (slots_of store.new Working (B.chip bench.new))) }
    ensures rows { (was : R) → HaveOtherMarks R.kind row_kind → IfSome (slots_of store.old Working (B.chip bench.old)) (λ slots. Some was ≡ at_slot R.kind slot slots)
        → OnOk result (KeepsRows (slots_of store.old Working (B.chip bench.old)) (slots_of store.new Working (B.chip bench.new))) }
    ensures leaves { LeavesStore B.chip B.faults bench.old bench.new store.old store.new result }
{
    change(store, bench, slot, value)?;
    Ok(())
}

/// Takes the record of a kind out of the slot that has it.
pub fn take_out<R: Editable>(store: &mut Store, slot: u16)
    requires begun { IsTrue store.old.begun }
    requires there { slot < store.old.chains.cells }
    ensures { TakesOut R.kind R.any slot store.old store.new }
{
    remove(store, slot);
}
