// CREATE USER.
ghost use Rattle.std.specs.Prelude.{◌≡◌, ◌*◌, None, Some, IfOk, IfSome, if◌then◌else◌};
ghost use Rattle.eeprom.specs.Chip.{Becomes, RisesAtMost};
ghost use Rattle.eeprom.specs.Fault.{each_error};
ghost use Rattle.eeprom.specs.StoreOf.{cell_size};
ghost use Rattle.record_store.specs.Tags as tags;
ghost use Rattle.record_store.specs.declared.tags.Tag.TheVariants as by;
ghost use Rattle.record_store.specs.declared.side.Side.TheVariants.{Working};
ghost use Rattle.scql_base.specs.declared.operation.Operation.TheVariants as operation;
ghost use Rattle.scql_base.specs.declared.words.StatusWord.{StatusWord};
ghost use Rattle.scql_model.specs.Creating as model;
ghost use Rattle.scql_model.specs.Creating.{IsActorOf, actor_stamp, may_create, user_added};
ghost use Rattle.scql_model.specs.WellFormed.{HasForm};
ghost use Rattle.catalog_codec.specs.Catalog.{user_kind};
ghost use Rattle.record_table.specs.Asking.{Asks, octets_so_far, slots_asked};
ghost use Rattle.record_table.specs.Tagged.{cells_tagged};
ghost use Rattle.row_table.specs.Tables.{Ended, InTransaction};

use eeprom::{Eeprom, EepromFault};
use record_store::{Side, SideReader};
use record_table::{Stop, next_stamp};
use row_table::Tables;
use scql_base::{Actor, Copied, Name, Octets, Profile, StatusWord, User};
use user_table::find_name;

/// Makes a user for an actor, on the working side. Where it is refused, nothing is done.
pub fn create_user<B: Eeprom>(
    tables: &mut Tables,
    bench: &mut B,
    actor: Actor,
    name: Name,
    profile: Profile,
    secret: &Octets<8>,
) -> Result<(), Stop>
    requires open { InTransaction tables.old (B.chip bench.old) }
    ensures { Ended B.chip B.faults (λ db. IsActorOf db actor × HasForm (operation.CreateUser name profile secret.now)) (λ db. user_added db actor name profile secret.now) bench.old bench.new tables.old tables.new result }
{
    let Some(owner) = owner_for(actor, profile) else {
        return Err(Stop::Refused {
            word: StatusWord::SECURITY_NOT_SATISFIED,
        });
    };
    let mut reader = SideReader {
        store: &tables.store,
        bench,
        side: Side::Working,
    };
    if is_taken(&mut reader, &name)? {
        return Err(Stop::Refused {
            word: StatusWord::ALREADY_EXISTS,
        });
    }
    let counter = next_stamp(&tables.store, bench)?;
    let user = User {
        stamp: counter.value.next,
        name,
        profile,
        owner,
        secret: secret.copy(),
        tries: User::ALL_TRIES,
    };
    tables.make(bench, &counter, &user)
}

// The stamp of who acts, where the actor may make a user of this profile.
fn owner_for(actor: Actor, profile: Profile) -> Option<u32>
    ensures { result ≡ (if may_create actor profile then Some (actor_stamp actor) else None) }
{
    match (actor, profile) {
        (
            Actor::User {
                stamp,
                profile: Profile::DbO,
            },
            _,
        ) => Some(stamp),
        (
            Actor::User {
                stamp,
                profile: Profile::Dboo,
            },
            Profile::Dbbu,
        ) => Some(stamp),
        _ => None,
    }
}

// Whether a user has the name, or it is PUBLIC.
fn is_taken<B: Eeprom>(reader: &mut SideReader<'_, '_, B>, name: &Name) -> Result<bool, EepromFault>
    ensures octets_read { IfOk result (λ _. IfSome (slots_asked reader.old)
        (λ slots. Becomes (RisesAtMost (cell_size * cells_tagged user_kind (Some (by.Name (tags.name_tag name.now))) slots)) (octets_so_far reader.old) (octets_so_far reader.new))) }
    ensures asks { Asks each_error (λ db result. IfOk result (λ taken. taken ≡ model.is_taken db name.now)) reader.old reader.new result }
{
    if name.octets() == Name::PUBLIC {
        return Ok(true);
    }
    let user = find_name(reader, name.copy())?;
    Ok(user.is_some())
}
