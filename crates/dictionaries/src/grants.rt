// The next row of a dictionary of grants. The owner of a grant is that of its object.
ghost use Rattle.std.specs.Prelude.{◌≡◌, ◌+◌, ◌*◌, List, IfOk, filter};
ghost use Rattle.std.specs.List.{cons_option, find};
ghost use Rattle.std.specs.Option.{option_map_or};
ghost use Rattle.eeprom.specs.Slots.{above, is_after, nearer, nearest_from};
ghost use Rattle.scql_base.specs.declared.records.Grant as base;
ghost use Rattle.scql_base.specs.declared.words.Subject.TheVariants.{Grants};
ghost use Rattle.scql_model.specs.Database.{Database};
ghost use Rattle.scql_model.specs.Dictionaries as model;
ghost use Rattle.scql_model.specs.Dictionaries.{rows_told};
ghost use Rattle.catalog_codec.specs.Catalog.{grant_kind, object_kind, user_kind};
ghost use Rattle.record_table.specs.Asking.{Holds};
ghost use Rattle.record_table.specs.Listed.{cells_marked};
ghost use Rattle.record_table.specs.Reading.{ReadsSide};
ghost use Rattle.dictionaries.specs.Told.{IsNext, most_cells_read, name_or_none, tells_of_grant};

use crate::names::{object_name, user_name};
use crate::rows::grant_row;
use crate::telling::TellsOf;
use eeprom::{Eeprom, EepromFault};
use record_store::{RecordOctets, SideReader};
use record_table::{next_slot, read_entry};
use scql_base::{Grant, Name, Object, Row};

/// The grant of the least stamp above a stamp of which a dictionary tells: its stamp, and its row.
pub(crate) fn next_grant<B: Eeprom>(
    reader: &mut SideReader<'_, '_, B>,
    owner: u32,
    stamp: u32,
    out: &mut Row,
) -> Result<Option<u32>, EepromFault>
    ensures next { (db : Database) → Holds reader.old db → IfOk result (λ next. IsNext (rows_told db owner Grants) stamp next out.new) }
    ensures reads { ReadsSide (most_cells_read reader.old.store.now.chains.cells Grants) reader.old reader.new result }
{
    let Some(grant) = find_next(reader, owner, stamp)? else {
        return Ok(None);
    };
    let object = object_name(reader, grant.object)?;
    let grantee = grantee_name(reader, grant.grantee)?;
    *out = grant_row(&grant, &object, &grantee);
    Ok(Some(grant.stamp))
}

// The name of a user, or PUBLIC.
fn grantee_name<B: Eeprom>(
    reader: &mut SideReader<'_, '_, B>,
    grantee: u32,
) -> Result<Option<Name>, EepromFault>
    ensures name { (db : Database) → Holds reader.old db → IfOk result (λ name. name_or_none name ≡ model.grantee_name db grantee) }
    ensures reads { ReadsSide (cells_marked user_kind) reader.old reader.new result }
{
    if grantee == 0 {
        return Ok(Name::read(Name::PUBLIC));
    }
    user_name(reader, grantee)
}

// The grant of the least stamp above a stamp of which a dictionary tells.
fn find_next<B: Eeprom>(
    reader: &mut SideReader<'_, '_, B>,
    owner: u32,
    stamp: u32,
) -> Result<Option<Grant>, EepromFault>
    ensures next { (db : Database) → Holds reader.old db
        → IfOk result (λ next. next ≡ find (is_after grant_kind.key stamp) (filter (tells_of_grant db owner) db.grants)) }
    ensures reads { ReadsSide (λ slots. cells_marked grant_kind slots + reader.old.store.now.chains.cells * cells_marked object_kind slots) reader.old reader.new result }
{
    let store = reader.store;
    let mut octets = RecordOctets::new();
    let mut nearest: Option<Grant> = None;
    let end = store.slots_in_use();
    let mut slot = next_slot::<Grant>(store, 0);
    while slot < end {
        let grant = read_entry::<Grant, B>(reader, slot, &mut octets)?;
        nearest = nearest_told(reader, owner, stamp, nearest, grant)?;
        slot = next_slot::<Grant>(store, slot + 1);
    }
    Ok(nearest)
}

// Of the nearest grant so far and one more, if there is one, that of the least stamp above a stamp, where a dictionary tells of it.
fn nearest_told<B: Eeprom>(
    reader: &mut SideReader<'_, '_, B>,
    owner: u32,
    stamp: u32,
    nearest: Option<Grant>,
    grant: Option<Grant>,
) -> Result<Option<Grant>, EepromFault>
    ensures nearest { (db : Database) → Holds reader.old db
        → IfOk result (λ next. (rest : List base.Grant) → nearest_from grant_kind.key stamp nearest (filter (tells_of_grant db owner) (cons_option grant rest))
        ≡ nearest_from grant_kind.key stamp next (filter (tells_of_grant db owner) rest)) }
    ensures reads { ReadsSide (cells_marked object_kind) reader.old reader.new result }
{
    let Some(grant) = grant else {
        return Ok(nearest);
    };
    if is_told(reader, owner, &grant)? {
        Ok(nearer_of(nearest, grant, stamp))
    } else {
        Ok(nearest)
    }
}

// Whether a dictionary of this owner tells of a grant. It isn't inlined, so that the object's place stands in no other frame.
#[inline(never)]
fn is_told<B: Eeprom>(
    reader: &mut SideReader<'_, '_, B>,
    owner: u32,
    grant: &Grant,
) -> Result<bool, EepromFault>
    ensures told { (db : Database) → Holds reader.old db → IfOk result (λ told. told ≡ tells_of_grant db owner grant.now) }
    ensures reads { ReadsSide (cells_marked object_kind) reader.old reader.new result }
{
    let telling = TellsOf(owner);
    if telling.all() {
        return Ok(true);
    }
    let mut place = None;
    object_table::find_stamp_into(reader, grant.object, &mut place)?;
    Ok(telling.of(owner_of(&place)))
}

// The owner of an object that was found.
fn owner_of(place: &Option<Object>) -> u32
    ensures { result ≡ option_map_or (λ object. object.owner) place.now 0 }
{
    match place {
        Some(object) => object.owner,
        None => 0,
    }
}

// Of the nearest grant so far and one more, the one of the least stamp above a stamp.
fn nearer_of(nearest: Option<Grant>, grant: Grant, stamp: u32) -> Option<Grant>
    ensures { result ≡ nearer grant_kind.key nearest (above grant_kind.key stamp grant) }
{
    if grant.stamp <= stamp {
        return nearest;
    }
    match nearest {
        Some(near) => {
            if grant.stamp < near.stamp {
                Some(grant)
            } else {
                Some(near)
            }
        }
        None => Some(grant),
    }
}
