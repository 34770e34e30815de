// CREATE VIEW and DROP VIEW.
ghost use Rattle.std.specs.Prelude.{◌≡◌, ◌≤◌, ℕ, List, MatchResult, OnOk, length};
ghost use Rattle.std.specs.List.{list_all, list_any};
ghost use Rattle.std.specs.Str.{bytes_eq};
ghost use Rattle.record_store.specs.declared.side.Side.TheVariants.{Working};
ghost use Rattle.scql_base.specs.declared.operation.Operation.TheVariants as operation;
ghost use Rattle.scql_base.specs.declared.operation.TheConstants.Command.{LONGEST_DATA};
ghost use Rattle.scql_base.specs.declared.records.ObjectKind.TheVariants.{View};
ghost use Rattle.scql_model.specs.Creating as creating;
ghost use Rattle.scql_model.specs.Creating.{IsActorOf};
ghost use Rattle.scql_model.specs.Database.{are_among, are_named_among};
ghost use Rattle.scql_model.specs.Defining.{named_anew, new_object, view_created, view_dropped};
ghost use Rattle.scql_model.specs.ReadingCommands as model;
ghost use Rattle.scql_model.specs.Records as records;
ghost use Rattle.scql_model.specs.WellFormed.{HasForm};
ghost use Rattle.catalog_codec.specs.Catalog.{object_kind};
ghost use Rattle.catalog_codec.specs.Kinds.{FitsChain};
ghost use Rattle.record_table.specs.Asking.{Asks, IsStopOf};
ghost use Rattle.record_table.specs.Making.{KeepsRows, is_stop_fault};
ghost use Rattle.record_table.specs.Listed.{slots_of};
ghost use Rattle.row_table.specs.Tables.{Ended, InTransaction};

use crate::base::{Base, find_base, is_shallow};
use crate::dropped::Dropped;
use crate::dropping::{OnObject, find_to_drop};
use crate::making::{find_new_stamp, makes_objects};
use eeprom::Eeprom;
use privilege_table::actor_stamp;
use record_store::{Side, SideReader};
use record_table::{Stop, refused};
use row_table::Tables;
use scql_base::{Actor, Conditions, Copied, Name, NameList, Object, ObjectKind, StatusWord};

/// CREATE VIEW: adds a view that the actor owns, on a table or a view that the actor owns too. With no columns it shows all of its base.
/// It isn't inlined, so that other commands have no room for its places.
#[inline(never)]
pub fn create_view<B: Eeprom>(
    tables: &mut Tables,
    bench: &mut B,
    actor: Actor,
    name: Name,
    base: Name,
    columns: &NameList,
    conditions: &Conditions,
) -> Result<(), Stop>
    requires open { InTransaction tables.old (B.chip bench.old) }
    requires short { length (records.conditions.spell conditions.now) ≤ LONGEST_DATA }
    ensures ended { Ended B.chip B.faults (λ db. IsActorOf db actor × HasForm (operation.CreateView name base columns.now conditions.now))
        (λ db. view_created db actor name base columns.now conditions.now) bench.old bench.new tables.old tables.new result }
    ensures rows { OnOk result (KeepsRows (slots_of tables.old.store Working (B.chip bench.old)) (slots_of tables.new.store Working (B.chip bench.new))) }
{
    let mut reader = SideReader {
        store: &tables.store,
        bench: &mut *bench,
        side: Side::Working,
    };
    let base = find_view_base(&mut reader, actor, base, columns, conditions)?;
    let counter = find_new_stamp(&tables.store, bench, &name)?;
    let view = new_view(counter.value.next, name, actor, &base, columns, conditions);
    tables.make(bench, &counter, &view)
}

/// DROP VIEW: removes a view or a dictionary that the actor owns and on which no view rests, and the grants on it. It isn't inlined either.
#[inline(never)]
pub fn drop_view<B: Eeprom>(
    tables: &mut Tables,
    bench: &mut B,
    actor: Actor,
    name: Name,
) -> Result<(), Stop>
    requires open { InTransaction tables.old (B.chip bench.old) }
    ensures { Ended B.chip B.faults (λ _. Unit {0}) (λ db. view_dropped db actor name) bench.old bench.new tables.old tables.new result }
{
    let view = find_to_drop(&tables.store, bench, actor, name, Dropped::View)?;
    tables.remove_with_grants(bench, view.slot, &OnObject(view.stamp))?;
    Ok(())
}

// On what the view rests, or the first refusal before that of its name. It isn't inlined, so that what it needs room for doesn't stand beside
// what is done with the view.
#[inline(never)]
fn find_view_base<B: Eeprom>(
    reader: &mut SideReader<'_, '_, B>,
    actor: Actor,
    base: Name,
    columns: &NameList,
    conditions: &Conditions,
) -> Result<Base, Stop>
    ensures { Asks is_stop_fault (λ db result. (name : List ℕ) → MatchResult result
        (λ found. named_anew db (new_object db actor name (View found.stamp (model.wanted_of found.columns columns.now) conditions.now)) ≡ view_created db actor name base columns.now conditions.now)
        (IsStopOf (view_created db actor name base columns.now conditions.now))) reader.old reader.new result }
{
    if !makes_objects(actor) {
        return refused(StatusWord::SECURITY_NOT_SATISFIED);
    }
    let base = find_base(reader, actor, base)?;
    if !is_shallow(reader, base.layer)? {
        return refused(StatusWord::CONDITIONS_NOT_SATISFIED);
    }
    if !has_columns(&base.columns, columns, conditions) {
        return refused(StatusWord::NOT_FOUND);
    }
    Ok(base)
}

// A view of the actor's on a base, whose record a store can have where the conditions aren't too long.
fn new_view(
    stamp: u32,
    name: Name,
    actor: Actor,
    base: &Base,
    columns: &NameList,
    conditions: &Conditions,
) -> Object
    requires short { length (records.conditions.spell conditions.now) ≤ LONGEST_DATA }
    ensures view { result ≡ record { stamp = stamp; name = name; owner = creating.actor_stamp actor; kind = View base.now.stamp (model.wanted_of base.now.columns columns.now) conditions.now } }
    ensures short { FitsChain object_kind result }
{
    prove!(name.octets().len() <= Name::LONGEST);
    let columns = wanted_of(&base.columns, columns);
    prove!(columns.len() <= NameList::MOST);
    Object {
        stamp,
        name,
        owner: actor_stamp(actor),
        kind: ObjectKind::View {
            base: base.stamp,
            columns,
            conditions: conditions.copy(),
        },
    }
}

// The named columns, or all where none is named.
fn wanted_of(all: &NameList, columns: &NameList) -> NameList
    ensures { result ≡ model.wanted_of all.now columns.now }
{
    if columns.len() == 0 {
        all.copy()
    } else {
        columns.copy()
    }
}

// Whether the named columns and those of the conditions are among all.
fn has_columns(all: &NameList, columns: &NameList, conditions: &Conditions) -> bool
    ensures { result ≡ are_named_among all.now columns.now conditions.now }
{
    has_each(all, columns) && has_conditions(all, conditions)
}

fn has_each(all: &NameList, columns: &NameList) -> bool
    ensures { result ≡ are_among columns.now all.now }
{
    columns
        .as_slice()
        .iter()
        .all(|column| has_column(all, column))
}

fn has_conditions(all: &NameList, conditions: &Conditions) -> bool
    ensures { result ≡ list_all (λ condition. list_any (bytes_eq condition.column) all.now) conditions.now }
{
    conditions
        .as_slice()
        .iter()
        .all(|condition| has_column(all, &condition.column))
}

fn has_column(all: &NameList, column: &Name) -> bool
    ensures { result ≡ list_any (bytes_eq column.now) all.now }
{
    all.as_slice()
        .iter()
        .any(|name| column.octets() == name.octets())
}
