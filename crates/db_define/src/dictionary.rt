// CREATE DICTIONARY.
ghost use Rattle.std.specs.Prelude.{◌≡◌, OnOk};
ghost use Rattle.record_store.specs.declared.side.Side.TheVariants.{Working};
ghost use Rattle.scql_base.specs.declared.operation.Operation.TheVariants as operation;
ghost use Rattle.scql_base.specs.declared.records.ObjectKind.TheVariants.{Dictionary};
ghost use Rattle.scql_model.specs.Creating as model;
ghost use Rattle.scql_model.specs.Creating.{IsActorOf};
ghost use Rattle.scql_model.specs.Defining.{object_created};
ghost use Rattle.scql_model.specs.WellFormed.{HasForm};
ghost use Rattle.catalog_codec.specs.Catalog.{object_kind};
ghost use Rattle.catalog_codec.specs.Kinds.{FitsChain};
ghost use Rattle.record_table.specs.Listed.{slots_of};
ghost use Rattle.record_table.specs.Making.{KeepsRows};
ghost use Rattle.row_table.specs.Tables.{Ended, InTransaction};

use crate::making::{find_new_stamp, makes_objects};
use eeprom::Eeprom;
use privilege_table::actor_stamp;
use record_table::{Stop, refused};
use row_table::Tables;
use scql_base::{Actor, Name, Object, ObjectKind, StatusWord, Subject};

/// CREATE DICTIONARY: adds a dictionary that tells of a subject, which the actor owns. It isn't inlined, so that other commands have no room
/// for its places.
#[inline(never)]
pub fn create_dictionary<B: Eeprom>(
    tables: &mut Tables,
    bench: &mut B,
    actor: Actor,
    name: Name,
    subject: Subject,
) -> Result<(), Stop>
    requires open { InTransaction tables.old (B.chip bench.old) }
    ensures ended { Ended B.chip B.faults (λ db. IsActorOf db actor × HasForm (operation.CreateDictionary name subject)) (λ db. object_created db actor name (Dictionary subject))
        bench.old bench.new tables.old tables.new result }
    ensures rows { OnOk result (KeepsRows (slots_of tables.old.store Working (B.chip bench.old)) (slots_of tables.new.store Working (B.chip bench.new))) }
{
    if !makes_objects(actor) {
        return refused(StatusWord::SECURITY_NOT_SATISFIED);
    }
    let counter = find_new_stamp(&tables.store, bench, &name)?;
    let dictionary = new_dictionary(counter.value.next, name, actor, subject);
    tables.make(bench, &counter, &dictionary)
}

// A dictionary of the actor's that tells of a subject, whose record a store can have.
fn new_dictionary(stamp: u32, name: Name, actor: Actor, subject: Subject) -> Object
    ensures dictionary { result ≡ record { stamp = stamp; name = name; owner = model.actor_stamp actor; kind = Dictionary subject } }
    ensures short { FitsChain object_kind result }
{
    prove!(name.octets().len() <= Name::LONGEST);
    Object {
        stamp,
        name,
        owner: actor_stamp(actor),
        kind: ObjectKind::Dictionary { subject },
    }
}
