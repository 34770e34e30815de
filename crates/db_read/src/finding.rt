// The object from which a cursor reads.
ghost use Rattle.std.specs.Prelude.{◌≡◌, ◌*◌, Ok, Some, IfOk, IfErr, IfSome, is_some, true};
ghost use Rattle.std.proofs.lemmas.Map.Entries.{option_filter};
ghost use Rattle.eeprom.specs.Chip.{Becomes, RisesAtMost};
ghost use Rattle.eeprom.specs.Frame.{Reads};
ghost use Rattle.eeprom.specs.StoreOf.{cell_size};
ghost use Rattle.scql_model.specs.Database.{Database};
ghost use Rattle.scql_model.specs.Rights as model;
ghost use Rattle.scql_model.specs.Rights.{seen_named, seen_stamped};
ghost use Rattle.record_table.specs.Asking.{Holds, SameSide, octets_so_far, slots_asked};
ghost use Rattle.record_table.specs.Making.{is_stop_fault};
ghost use Rattle.record_table.specs.Reading.{NeverFalls};
ghost use Rattle.db_read.specs.Answered.{Stops, WhereRead, selectable};
ghost use Rattle.db_read.specs.Reader.{read_so_far, ReadsFrom, ReadsOn, slots_read};
ghost use Rattle.db_read.specs.Searched.{cells_named, cells_selected, rights_cells};

use crate::reader::Reader;
use eeprom::Eeprom;
use object_table::{find_name_into, find_stamp_into};
use privilege_table::{Privilege, rights_on};
use record_store::SideReader;
use record_table::{Stop, refused};
use scql_base::{Actor, Name, Object, StatusWord};

/// Reads the object of a stamp, from which the actor may select, into a place of the caller's; or the first refusal.
pub fn find_selected<B: Eeprom>(
    reader: &mut Reader<'_, B>,
    actor: Actor,
    stamp: u32,
    place: &mut Option<Object>,
) -> Result<(), Stop>
    ensures found { (db : Database) → ReadsFrom reader.old db → IfOk result (λ _. IfSome place.new (λ object. selectable db actor (seen_stamped db actor stamp) ≡ Ok object)) }
    ensures there { IfOk result (λ _. is_some place.new ≡ true) }
    ensures refused { (db : Database) → ReadsFrom reader.old db → IfErr result (Stops (selectable db actor (seen_stamped db actor stamp))) }
    ensures octets_read { (db : Database) → ReadsFrom reader.old db
        → WhereRead result (Becomes (RisesAtMost (cell_size * cells_selected db actor stamp)) (read_so_far reader.old) (read_so_far reader.new)) }
    ensures rises { WhereRead result (NeverFalls (slots_read reader.old) (read_so_far reader.old) (read_so_far reader.new)) }
    ensures reads { ReadsOn is_stop_fault reader.old reader.new result }
{
    let mut side = SideReader {
        store: reader.store,
        bench: &mut *reader.bench,
        side: reader.side,
    };
    find_stamp_into(&mut side, stamp, place)?;
    select(&mut side, actor, place)?;
    Ok(())
}

/// The object of a name, from which the actor may select, or the first refusal. It is read into a place of the caller's.
pub(crate) fn find_named<'a, B: Eeprom>(
    reader: &mut Reader<'_, B>,
    actor: Actor,
    name: Name,
    place: &'a mut Option<Object>,
) -> Result<&'a Object, Stop>
    ensures found { (db : Database) → ReadsFrom reader.old db → IfOk result (λ object. selectable db actor (seen_named db actor name) ≡ Ok object.now) }
    ensures refused { (db : Database) → ReadsFrom reader.old db → IfErr result (Stops (selectable db actor (seen_named db actor name))) }
    ensures octets_read { (db : Database) → ReadsFrom reader.old db
        → WhereRead result (Becomes (RisesAtMost (cell_size * cells_named db actor name)) (read_so_far reader.old) (read_so_far reader.new)) }
    ensures reads { ReadsOn is_stop_fault reader.old reader.new result }
{
    let mut side = SideReader {
        store: reader.store,
        bench: &mut *reader.bench,
        side: reader.side,
    };
    find_name_into(&mut side, name, place)?;
    select(&mut side, actor, place)
}

// The object that was found, if the actor may select from it, or the first refusal.
fn select<'a, B: Eeprom>(
    reader: &mut SideReader<'_, '_, B>,
    actor: Actor,
    found: &'a Option<Object>,
) -> Result<&'a Object, Stop>
    ensures found { (db : Database) → Holds reader.old db
        → IfOk result (λ object. selectable db actor (option_filter (model.appears db actor) found.now) ≡ Ok object.now) }
    ensures refused { (db : Database) → Holds reader.old db
        → IfErr result (Stops (selectable db actor (option_filter (model.appears db actor) found.now))) }
    ensures there { IfOk result (λ object. found.now ≡ Some object.now) }
    ensures octets_read { (db : Database) → Holds reader.old db
        → WhereRead result (Becomes (RisesAtMost (cell_size * rights_cells db actor found.now)) (octets_so_far reader.old) (octets_so_far reader.new)) }
    ensures rises { WhereRead result (NeverFalls (slots_asked reader.old) (octets_so_far reader.old) (octets_so_far reader.new)) }
    ensures goes_on { SameSide reader.old reader.new }
    ensures frame { Reads is_stop_fault B.chip B.faults reader.old.bench.now reader.new.bench.now result }
{
    let Some(object) = found else {
        return refused(StatusWord::NOT_FOUND);
    };
    let rights = rights_on(reader, actor, object)?;
    if !rights.see() {
        return refused(StatusWord::NOT_FOUND);
    }
    if !rights.have(Privilege::Select) {
        return refused(StatusWord::SECURITY_NOT_SATISFIED);
    }
    Ok(object)
}
