// CREATE TABLE and DROP TABLE.
ghost use Rattle.std.specs.Prelude.{◌≡◌, OnOk};
ghost use Rattle.record_store.specs.declared.side.Side.TheVariants.{Working};
ghost use Rattle.scql_base.specs.declared.operation.Operation.TheVariants as operation;
ghost use Rattle.scql_base.specs.declared.records.ObjectKind.TheVariants.{Table};
ghost use Rattle.scql_model.specs.Creating as model;
ghost use Rattle.scql_model.specs.Creating.{IsActorOf};
ghost use Rattle.scql_model.specs.Defining.{object_created, table_dropped};
ghost use Rattle.scql_model.specs.WellFormed.{HasForm};
ghost use Rattle.catalog_codec.specs.Catalog.{object_kind};
ghost use Rattle.catalog_codec.specs.Kinds.{FitsChain};
ghost use Rattle.record_table.specs.Listed.{slots_of};
ghost use Rattle.record_table.specs.Making.{KeepsRows};
ghost use Rattle.row_table.specs.Tables.{Ended, InTransaction};

use crate::dropped::Dropped;
use crate::dropping::{OnObject, find_to_drop};
use crate::making::{find_new_stamp, makes_objects};
use eeprom::Eeprom;
use privilege_table::actor_stamp;
use record_table::{Stop, refused};
use row_table::Tables;
use scql_base::{Actor, Copied, Name, NameList, Object, ObjectKind, StatusWord};

/// CREATE TABLE: adds a table with these columns, which the actor owns. It isn't inlined, so that other commands have no room for its places.
#[inline(never)]
pub fn create_table<B: Eeprom>(
    tables: &mut Tables,
    bench: &mut B,
    actor: Actor,
    name: Name,
    columns: &NameList,
) -> Result<(), Stop>
    requires open { InTransaction tables.old (B.chip bench.old) }
    ensures ended { Ended B.chip B.faults (λ db. IsActorOf db actor × HasForm (operation.CreateTable name columns.now)) (λ db. object_created db actor name (Table columns.now))
        bench.old bench.new tables.old tables.new result }
    ensures rows { OnOk result (KeepsRows (slots_of tables.old.store Working (B.chip bench.old)) (slots_of tables.new.store Working (B.chip bench.new))) }
{
    if !makes_objects(actor) {
        return refused(StatusWord::SECURITY_NOT_SATISFIED);
    }
    let counter = find_new_stamp(&tables.store, bench, &name)?;
    let table = new_table(counter.value.next, name, actor, columns);
    tables.make(bench, &counter, &table)
}

/// DROP TABLE: removes a table that the actor owns and on which no view rests, the grants on it and its rows, which the index names.
/// It isn't inlined either.
#[inline(never)]
pub fn drop_table<B: Eeprom>(
    tables: &mut Tables,
    bench: &mut B,
    actor: Actor,
    name: Name,
) -> Result<(), Stop>
    requires open { InTransaction tables.old (B.chip bench.old) }
    ensures { Ended B.chip B.faults (λ _. Unit {0}) (λ db. table_dropped db actor name) bench.old bench.new tables.old tables.new result }
{
    let table = find_to_drop(&tables.store, bench, actor, name, Dropped::Table)?;
    tables.remove_with_grants(bench, table.slot, &OnObject(table.stamp))?;
    tables.remove_rows(table.stamp);
    Ok(())
}

// A table of the actor's with these columns, whose record a store can have.
fn new_table(stamp: u32, name: Name, actor: Actor, columns: &NameList) -> Object
    ensures table { result ≡ record { stamp = stamp; name = name; owner = model.actor_stamp actor; kind = Table columns.now } }
    ensures short { FitsChain object_kind result }
{
    prove!(name.octets().len() <= Name::LONGEST);
    prove!(columns.len() <= NameList::MOST);
    Object {
        stamp,
        name,
        owner: actor_stamp(actor),
        kind: ObjectKind::Table {
            columns: columns.copy(),
        },
    }
}
