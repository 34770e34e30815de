// Who may do what with an object: its owner all, and others what grants give them.
ghost use Rattle.std.specs.Prelude.{◌≡◌, IfOk};
ghost use Rattle.std.specs.List.{list_any};
ghost use Rattle.scql_model.specs.Database.{Database};
ghost use Rattle.scql_model.specs.Creating as creating;
ghost use Rattle.scql_model.specs.Rights.{all_privileges, has_bit};
ghost use Rattle.record_table.specs.Asking.{Holds};
ghost use Rattle.record_table.specs.Reading.{ReadsSide};
ghost use Rattle.privilege_table.specs.Granted.{cells_granted};
ghost use Rattle.privilege_table.specs.Rights.{AreRights, privilege_bit};
ghost use Rattle.privilege_table.specs.Seen.{FindsSeen, FindsSeenInto};

use crate::held;
use eeprom::{Eeprom, EepromFault};
use object_table::find_name_into;
use record_store::{Found, SideReader};
use scql_base::{Actor, Name, Object, Privileges};

/// One of the four privileges.
#[derive(Clone, Copy, PartialEq, Eq, Debug)]
pub enum Privilege {
    Select,
    Insert,
    Update,
    Delete,
}

impl Privilege {
    /// Its bit among those of a grant.
    pub fn bit(self) -> u8
        ensures { result ≡ privilege_bit self }
    {
        match self {
            Privilege::Select => Privileges::SELECT,
            Privilege::Insert => Privileges::INSERT,
            Privilege::Update => Privileges::UPDATE,
            Privilege::Delete => Privileges::DELETE,
        }
    }
}

/// The stamp of the user who acts, and 0 for PUBLIC.
pub fn actor_stamp(actor: Actor) -> u32
    ensures { result ≡ creating.actor_stamp actor }
{
    match actor {
        Actor::Public => 0,
        Actor::User { stamp, .. } => stamp,
    }
}

/// Whether the owner of this stamp is who acts. PUBLIC owns nothing.
pub fn is_owned_by(actor: Actor, owner: u32) -> bool
    ensures { result ≡ creating.is_owned_by actor owner }
{
    match actor {
        Actor::Public => false,
        Actor::User { stamp, .. } => owner == stamp,
    }
}

/// What an actor may do with an object: the bits of the privileges that it holds on it.
#[derive(Clone, Copy)]
pub struct Rights {
    pub bits: u8,
}

impl Rights {
    /// Those of an object's owner.
    const ALL: Rights = Rights { bits: 15 };

    /// Whether the object appears, since there is some privilege.
    pub fn see(self) -> bool
        ensures { result ≡ list_any (λ bit. has_bit bit self.bits) all_privileges }
    {
        self.have(Privilege::Select)
            || self.have(Privilege::Insert)
            || self.have(Privilege::Update)
            || self.have(Privilege::Delete)
    }

    /// Whether a privilege is among them.
    pub fn have(self, privilege: Privilege) -> bool
        ensures { result ≡ has_bit (privilege_bit privilege) self.bits }
    {
        self.bits / privilege.bit() % 2 == 1
    }
}

/// What an actor may do with an object: its owner all, and nothing is read, and anybody else what grants give. Each grant is read once.
pub fn rights_on<B: Eeprom>(
    reader: &mut SideReader<'_, '_, B>,
    actor: Actor,
    object: &Object,
) -> Result<Rights, EepromFault>
    ensures rights { (db : Database) → Holds reader.old db → IfOk result (AreRights db actor object.now) }
    ensures reads { ReadsSide (cells_granted object.now.stamp (creating.actor_stamp actor)) reader.old reader.new result }
{
    if is_owned_by(actor, object.owner) {
        return Ok(Rights::ALL);
    }
    let bits = held(reader, object.stamp, actor_stamp(actor))?;
    Ok(Rights { bits })
}

/// Finds the object of a name, where it appears to an actor.
pub fn find_seen<B: Eeprom>(
    reader: &mut SideReader<'_, '_, B>,
    actor: Actor,
    name: Name,
) -> Result<Option<Found<Object>>, EepromFault>
    ensures { FindsSeen actor name reader.old reader.new result }
{
    let mut place = None;
    let Some(slot) = find_seen_into(reader, actor, name, &mut place)? else {
        return Ok(None);
    };
    let Some(value) = place else {
        return Ok(None);
    };
    Ok(Some(Found { slot, value }))
}

/// Finds the object of a name and reads it into a place, where it appears to an actor: its slot is answered. Where none does the
/// place is empty.
pub fn find_seen_into<B: Eeprom>(
    reader: &mut SideReader<'_, '_, B>,
    actor: Actor,
    name: Name,
    place: &mut Option<Object>,
) -> Result<Option<u16>, EepromFault>
    ensures { FindsSeenInto actor name reader.old reader.new place.new result }
{
    let slot = find_name_into(reader, name, place)?;
    let Some(object) = place else {
        return Ok(None);
    };
    if rights_on(reader, actor, object)?.see() {
        return Ok(slot);
    }
    *place = None;
    Ok(None)
}
