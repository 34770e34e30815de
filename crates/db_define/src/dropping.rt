// What the operations have in common that drop objects.
ghost use Rattle.std.specs.Prelude.{◌≡◌, ◌<◌, ◌==◌, Some, None, Err, IfOk, IfErr, IfSome};
ghost use Rattle.std.specs.List.{list_any};
ghost use Rattle.eeprom.specs.Fault.{each_error};
ghost use Rattle.eeprom.specs.Frame.{Reads};
ghost use Rattle.record_store.specs.Held.{IsOver};
ghost use Rattle.record_store.specs.declared.side.Side.TheVariants.{Working};
ghost use Rattle.scql_model.specs.Database.{Database};
ghost use Rattle.scql_base.specs.declared.records.Object.{Object};
ghost use Rattle.record_table.specs.Asking.{Asks};
ghost use Rattle.record_table.specs.Listed.{slots_of};
ghost use Rattle.record_table.specs.Making.{Ends, IsHeld, is_stop_fault};
ghost use Rattle.db_define.specs.Dependent.{is_on, is_view_on};
ghost use Rattle.db_define.specs.Dropped as specs;
ghost use Rattle.db_define.specs.Dropped.{IsToDrop};

use crate::dropped::{Dropped, ToDrop};
use eeprom::{Eeprom, EepromFault};
use privilege_table::{find_seen_into, is_owned_by};
use record_store::{Side, SideReader, Store, Tag};
use record_table::{Stop, Wanted, find_into, refused};
use scql_base::{Actor, Grant, Name, Object, ObjectKind, StatusWord};

/// Finds the object of a name that is dropped so: one that the actor owns, and on which no view rests; or the first refusal. It isn't inlined,
/// so that the object's place stands in no other frame.
#[inline(never)]
pub(crate) fn find_to_drop<B: Eeprom>(
    store: &Store,
    bench: &mut B,
    actor: Actor,
    name: Name,
    dropped: Dropped,
) -> Result<ToDrop, Stop>
    requires over { IsOver store.now (B.chip bench.old) }
    ensures there { IfOk result (λ found. found.slot < store.now.chains.cells) }
    ensures found { IfOk result (λ found. IfSome (slots_of store.now Working (B.chip bench.old)) (IsToDrop dropped store.now (B.chip bench.old) actor name found)) }
    ensures refused { (db : Database) → IsHeld store.now Working (B.chip bench.old) db
        → IfErr result (λ stop. Ends {T = Unit {0}} db (specs.dropped dropped db actor name) (Err stop) store.now store.now (B.chip bench.old) (B.chip bench.new)) }
    ensures frame { Reads is_stop_fault B.chip B.faults bench.old bench.new result }
{
    let mut place = None;
    let mut reader = SideReader {
        store,
        bench,
        side: Side::Working,
    };
    let Some(slot) = find_seen_into(&mut reader, actor, name, &mut place)? else {
        return refused(StatusWord::NOT_FOUND);
    };
    let Some(object) = &place else {
        return refused(StatusWord::NOT_FOUND);
    };
    if !drops(dropped, &object.kind) {
        return refused(StatusWord::NOT_FOUND);
    }
    if !is_owned_by(actor, object.owner) {
        return refused(StatusWord::SECURITY_NOT_SATISFIED);
    }
    if is_viewed(&mut reader, object.stamp)? {
        return refused(StatusWord::CONDITIONS_NOT_SATISFIED);
    }
    Ok(ToDrop {
        slot,
        stamp: object.stamp,
    })
}

// Whether a view rests on the object of a stamp. It isn't inlined, so that the place of that view stands in no other frame.
#[inline(never)]
fn is_viewed<B: Eeprom>(reader: &mut SideReader<'_, '_, B>, stamp: u32) -> Result<bool, EepromFault>
    ensures { Asks each_error (λ db result. IfOk result (λ viewed. viewed ≡ list_any (λ (o : Object). is_view_on stamp o.kind) db.objects)) reader.old reader.new result }
{
    let mut place = None;
    find_into(reader, &ViewOn(stamp), &mut place)?;
    Ok(place.is_some())
}

// Whether an object of a kind is dropped so.
fn drops(dropped: Dropped, kind: &ObjectKind) -> bool
    ensures { result ≡ specs.drops dropped kind.now }
{
    let is_table = matches!(kind, ObjectKind::Table { .. });
    match dropped {
        Dropped::Table => is_table,
        Dropped::View => !is_table,
    }
}

// The views on the object of a stamp.
#[derive(Clone, Copy)]
struct ViewOn(u32);

impl Wanted<Object> for ViewOn {
    ghost wants = { λ wanted object. is_view_on wanted.0 object.kind };

    fn is(&self, entry: &Object) -> bool {
        match &entry.kind {
            ObjectKind::View { base, .. } => *base == self.0,
            _ => false,
        }
    }

    fn tag(&self) -> Option<Tag> {
        None
    }
}

/// The grants on the object of a stamp.
#[derive(Clone, Copy)]
pub(crate) struct OnObject(pub(crate) u32);

impl Wanted<Grant> for OnObject {
    ghost wants = { λ wanted grant. is_on wanted.0 grant };

    fn is(&self, entry: &Grant) -> bool {
        entry.object == self.0
    }

    fn tag(&self) -> Option<Tag> {
        None
    }
}
