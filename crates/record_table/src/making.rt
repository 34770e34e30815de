// A new record, which takes the next stamp.
ghost use Rattle.std.specs.Prelude.{◌≡◌, ◌<◌, ◌+◌, ◌*◌, Ok, Err, IfOk, IfErr, IfSome, List, OnOk, true};
ghost use Rattle.eeprom.specs.Chip.{Becomes, RisesAtMost};
ghost use Rattle.eeprom.specs.StoreOf.{cell_size};
ghost use Rattle.record_store.specs.Held.{IsOver};
ghost use Rattle.record_store.specs.declared.side.Side.TheVariants.{Working};
ghost use Rattle.scql_base.specs.declared.words.StatusWord.{StatusWord};
ghost use Rattle.scql_model.specs.Database.{Database};
ghost use Rattle.scql_model.specs.Edits.{Edit, making, takes_stamp};
ghost use Rattle.catalog_codec.specs.Kinds.{HaveOtherMarks};
ghost use Rattle.catalog_codec.specs.Catalog.{counter_kind, row_kind};
ghost use Rattle.record_table.specs.Changed.{IsBegunOver};
ghost use Rattle.record_table.specs.Listed.{cells_marked, slots_of};
ghost use Rattle.record_table.specs.Making.{Ends, IsHeld, IsMade, IsValidWith, KeepsRows};
ghost use Rattle.record_table.specs.OneRecord.{FindsCounter, IsCounter, LeavesStore};

use crate::{Any, Editable, Stop, add, change, find_by};
use catalog_codec::Counter;
use eeprom::Eeprom;
use record_store::{Found, Side, SideReader, Store};
use scql_base::StatusWord;

/// The counter in its slot, where a stamp is left that it can give out.
pub fn next_stamp<B: Eeprom>(store: &Store, bench: &mut B) -> Result<Found<Counter>, Stop>
    requires over { IsOver store.now (B.chip bench.old) }
    ensures finds { FindsCounter B.chip B.faults store.now bench.old bench.new result }
    ensures none { (db : Database) (edits : List Edit) → IsHeld store.now Working (B.chip bench.old) db → takes_stamp edits ≡ true
        → IfErr result (λ stop. Ends {T = Unit {0}} db (Ok edits) (Err stop) store.now store.now (B.chip bench.old) (B.chip bench.new)) }
    ensures octets_read { IfOk result (λ _. IfSome (slots_of store.now Working (B.chip bench.old))
        (λ slots. Becomes (RisesAtMost (cell_size * cells_marked counter_kind slots)) (B.octets_read bench.old) (B.octets_read bench.new))) }
{
    // A card has a counter; without one there would be no stamp to take.
    let no_space = Stop::Refused {
        word: StatusWord::NO_SPACE,
    };
    let mut reader = SideReader {
        store,
        bench,
        side: Side::Working,
    };
    let counter = find_by::<Counter, Any, B>(&mut reader, &Any)?.ok_or(no_space)?;
    if counter.value.next == u32::MAX {
        return Err(no_space);
    }
    Ok(counter)
}

/// Adds a record that takes the counter's stamp, and then counts on; answers the record's slot. Where there is no room for the record nothing is written.
pub fn make<R: Editable, B: Eeprom>(
    store: &mut Store,
    bench: &mut B,
    counter: &Found<Counter>,
    value: &R,
) -> Result<u16, Stop>
    requires open { IsBegunOver store.old (B.chip bench.old) }
    requires spelled { R.can_encode value.now }
    requires counter { IsCounter store.old (B.chip bench.old) counter.now }
    ensures ends { (db : Database) → IsHeld store.old Working (B.chip bench.old) db → R.kind.key value.now ≡ db.next → IsValidWith db (making db (R.any value.now))
        → Ends db (Ok (making db (R.any value.now))) result store.old store.new (B.chip bench.old) (B.chip bench.new) }
    ensures there { IfOk result (λ slot. slot < store.old.chains.cells) }
    ensures made { IfOk result (λ slot. Becomes (IsMade R.kind value.now slot counter.now.slot (counter.now.value + 1))
        (slots_of store.old Working (B.chip bench.old)) (slots_of store.new Working (B.chip bench.new))) }
    ensures rows { HaveOtherMarks R.kind row_kind → OnOk result (KeepsRows (slots_of store.old Working (B.chip bench.old)) (slots_of store.new Working (B.chip bench.new))) }
    ensures leaves { LeavesStore B.chip B.faults bench.old bench.new store.old store.new result }
{
    let slot = add(store, bench, value)?;
    let next = Counter {
        next: counter.value.next + 1,
    };
    change(store, bench, counter.slot, &next)?;
    Ok(slot)
}
