// DELETE USER.
ghost use Rattle.std.specs.Prelude.{◌≡◌, ◌<◌, Some, option_map, IfOk, IfSome};
ghost use Rattle.std.specs.List.{list_any};
ghost use Rattle.eeprom.specs.Fault.{each_error};
ghost use Rattle.record_store.specs.declared.side.Side.TheVariants.{Working};
ghost use Rattle.scql_base.specs.declared.words.StatusWord.{StatusWord};
ghost use Rattle.scql_model.specs.Database as model;
ghost use Rattle.scql_model.specs.Database.{Database};
ghost use Rattle.scql_model.specs.Users as users;
ghost use Rattle.scql_model.specs.Users.{removing_user, user_deleted};
ghost use Rattle.catalog_codec.specs.Catalog.{user_kind};
ghost use Rattle.record_table.specs.Listed.{at_slot};
ghost use Rattle.record_table.specs.Asking.{Asks, Holds, slots_asked};
ghost use Rattle.record_table.specs.Making.{IsHeld, is_stop_fault};
ghost use Rattle.row_table.specs.Tables.{Ended, InTransaction};
ghost use Rattle.db_access.specs.Asked.{AnswersNamed};
ghost use Rattle.db_access.specs.Depending.{is_for, is_object_of, is_user_of};

use eeprom::{Eeprom, EepromFault};
use privilege_table::is_owned_by;
use record_store::{Found, Side, SideReader, Tag};
use record_table::{Stop, Wanted, find_by, refused};
use row_table::Tables;
use scql_base::{Actor, Grant, Name, Object, Profile, StatusWord, User};
use user_table::find_name;

/// Deletes a user whom the actor owns and whom nothing needs, on the working side, and the grants to it. Answers the stamp that it had.
pub fn delete_user<B: Eeprom>(
    tables: &mut Tables,
    bench: &mut B,
    actor: Actor,
    name: Name,
) -> Result<u32, Stop>
    requires open { InTransaction tables.old (B.chip bench.old) }
    ensures ended { Ended B.chip B.faults (λ _. Unit {0}) (λ db. user_deleted db actor name) bench.old bench.new tables.old tables.new result }
    ensures gone { (db : Database) → IsHeld tables.old.store Working (B.chip bench.old) db → IfOk result (λ stamp. option_map (λ user. user.stamp) (model.user_named db.users name) ≡ Some stamp) }
{
    let mut reader = SideReader {
        store: &tables.store,
        bench,
        side: Side::Working,
    };
    let user = find_to_delete(&mut reader, actor, name)?;
    tables.remove_with_grants(bench, user.slot, &GrantedTo(user.value.stamp))?;
    Ok(user.value.stamp)
}

// Finds the user who is deleted, or the first refusal.
fn find_to_delete<B: Eeprom>(
    reader: &mut SideReader<'_, '_, B>,
    actor: Actor,
    name: Name,
) -> Result<Found<User>, Stop>
    ensures there { IfOk result (λ user. user.slot < reader.old.store.now.chains.cells) }
    ensures at { IfOk result (λ user. IfSome (slots_asked reader.old) (λ slots. Some user.value ≡ at_slot user_kind user.slot slots)) }
    ensures named { (db : Database) → Holds reader.old db → IfOk result (λ user. model.user_named db.users name ≡ Some user.value) }
    ensures asks { Asks is_stop_fault (λ db. AnswersNamed (λ user. removing_user db user.value) (user_deleted db actor name)) reader.old reader.new result }
{
    let Some(user) = find_name(reader, name)? else {
        return refused(StatusWord::NOT_FOUND);
    };
    if !is_owned_by(actor, user.value.owner) {
        return refused(StatusWord::SECURITY_NOT_SATISFIED);
    }
    if is_needed(reader, &user.value)? {
        return refused(StatusWord::CONDITIONS_NOT_SATISFIED);
    }
    Ok(user)
}

// Whether it is OWNER, or owns a user or an object.
fn is_needed<B: Eeprom>(
    reader: &mut SideReader<'_, '_, B>,
    user: &User,
) -> Result<bool, EepromFault>
    ensures { Asks each_error (λ db result. IfOk result (λ needed. needed ≡ users.is_needed db user.now)) reader.old reader.new result }
{
    if is_db_o(user) {
        return Ok(true);
    }
    if owns_users(reader, user.stamp)? {
        return Ok(true);
    }
    owns_objects(reader, user.stamp)
}

fn is_db_o(user: &User) -> bool
    ensures { result ≡ model.is_db_o user.now }
{
    matches!(user.profile, Profile::DbO)
}

// Whether the user of a stamp owns a user.
fn owns_users<B: Eeprom>(
    reader: &mut SideReader<'_, '_, B>,
    stamp: u32,
) -> Result<bool, EepromFault>
    ensures { Asks each_error (λ db result. IfOk result (λ owns. owns ≡ list_any (is_user_of stamp) db.users)) reader.old reader.new result }
{
    Ok(find_by(reader, &UserOf(stamp))?.is_some())
}

// Whether the user of a stamp owns an object.
fn owns_objects<B: Eeprom>(
    reader: &mut SideReader<'_, '_, B>,
    stamp: u32,
) -> Result<bool, EepromFault>
    ensures { Asks each_error (λ db result. IfOk result (λ owns. owns ≡ list_any (is_object_of stamp) db.objects)) reader.old reader.new result }
{
    Ok(find_by(reader, &ObjectOf(stamp))?.is_some())
}

// The users whom the user of a stamp owns.
#[derive(Clone, Copy)]
struct UserOf(u32);

impl Wanted<User> for UserOf {
    ghost wants = { λ wanted user. is_user_of wanted.0 user };

    fn is(&self, entry: &User) -> bool {
        entry.owner == self.0
    }

    fn tag(&self) -> Option<Tag> {
        None
    }
}

// The objects that the user of a stamp owns.
#[derive(Clone, Copy)]
struct ObjectOf(u32);

impl Wanted<Object> for ObjectOf {
    ghost wants = { λ wanted object. is_object_of wanted.0 object };

    fn is(&self, entry: &Object) -> bool {
        entry.owner == self.0
    }

    fn tag(&self) -> Option<Tag> {
        None
    }
}

// The grants to the user of a stamp.
#[derive(Clone, Copy)]
struct GrantedTo(u32);

impl Wanted<Grant> for GrantedTo {
    ghost wants = { λ wanted grant. is_for wanted.0 grant };

    fn is(&self, entry: &Grant) -> bool {
        entry.grantee == self.0
    }

    fn tag(&self) -> Option<Tag> {
        None
    }
}
