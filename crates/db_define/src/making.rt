// What the operations have in common that make objects.
ghost use Rattle.std.specs.Prelude.{◌≡◌, ◌<◌, false, Err, IfOk, IfErr};
ghost use Rattle.std.specs.List.{list_any};
ghost use Rattle.eeprom.specs.Fault.{each_error};
ghost use Rattle.record_store.specs.Held.{IsOver};
ghost use Rattle.record_store.specs.declared.side.Side.TheVariants.{Working};
ghost use Rattle.scql_base.specs.declared.records.Object.{Object};
ghost use Rattle.scql_model.specs.Database.{Database};
ghost use Rattle.scql_model.specs.Defining as model;
ghost use Rattle.scql_model.specs.Defining.{named_anew};
ghost use Rattle.object_table.specs.Named.{has_name};
ghost use Rattle.record_table.specs.Asking.{Asks};
ghost use Rattle.record_table.specs.Making.{Ends, IsHeld};
ghost use Rattle.record_table.specs.OneRecord.{FindsCounter};

use catalog_codec::Counter;
use eeprom::{Eeprom, EepromFault};
use object_table::find_name_into;
use record_store::{Found, Side, SideReader, Store};
use record_table::{Stop, next_stamp, refused};
use scql_base::{Actor, Copied, Name, Profile, StatusWord};

/// DB_O and DBOO make objects.
pub(crate) fn makes_objects(actor: Actor) -> bool
    ensures { result ≡ model.makes_objects actor }
{
    match actor {
        Actor::Public => false,
        Actor::User { profile, .. } => match profile {
            Profile::DbO | Profile::Dboo => true,
            Profile::Dbbu => false,
        },
    }
}

/// The counter whose stamp a new object takes, or the first refusal: another object has its name, or no stamp is left. The object is made
/// after this, so that it has but one place.
pub(crate) fn find_new_stamp<B: Eeprom>(
    store: &Store,
    bench: &mut B,
    name: &Name,
) -> Result<Found<Counter>, Stop>
    requires over { IsOver store.now (B.chip bench.old) }
    ensures finds { FindsCounter B.chip B.faults store.now bench.old bench.new result }
    ensures free { (db : Database) → IsHeld store.now Working (B.chip bench.old) db → IfOk result (λ _. list_any (has_name name.now) db.objects ≡ false) }
    ensures refused { (db : Database) (o : Object) → IsHeld store.now Working (B.chip bench.old) db → o.name ≡ name.now
        → IfErr result (λ stop. Ends {T = Unit {0}} db (named_anew db o) (Err stop) store.now store.now (B.chip bench.old) (B.chip bench.new)) }
{
    let mut reader = SideReader {
        store,
        bench: &mut *bench,
        side: Side::Working,
    };
    if is_taken(&mut reader, name.copy())? {
        return refused(StatusWord::ALREADY_EXISTS);
    }
    next_stamp(store, bench)
}

// Whether an object has the name. It isn't inlined, so that the place of that object doesn't stand beside what is made.
#[inline(never)]
fn is_taken<B: Eeprom>(reader: &mut SideReader<'_, '_, B>, name: Name) -> Result<bool, EepromFault>
    ensures { Asks each_error (λ db result. IfOk result (λ taken. taken ≡ list_any (has_name name) db.objects)) reader.old reader.new result }
{
    let mut place = None;
    find_name_into(reader, name, &mut place)?;
    Ok(place.is_some())
}
