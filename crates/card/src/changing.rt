// Changes of the database, each for who acts, in a transaction of its own.
ghost use Rattle.std.specs.Prelude.{◌≡◌, ℕ, ◌*◌, List, Option, false, true, IfOk, IfSome, OnOk};
ghost use Rattle.eeprom.specs.Chip.{Becomes, Keeps};
ghost use Rattle.eeprom.specs.Fault.{each_error};
ghost use Rattle.eeprom.specs.Frame.{Reads};
ghost use Rattle.eeprom.specs.StoreOf.{store_of, cell_size};
ghost use Rattle.record_store.specs.Held.{IsOver};
ghost use Rattle.record_store.specs.declared.side.Side.TheVariants.{Committed, Working};
ghost use Rattle.scql_base.specs.declared.cursor.Cursor as model;
ghost use Rattle.scql_base.specs.declared.operation.Operation.TheVariants as asks;
ghost use Rattle.scql_model.specs.Changing.{edits_of};
ghost use Rattle.scql_model.specs.Creating.{actor_stamp};
ghost use Rattle.scql_model.specs.Cursors.{IsCursorOf};
ghost use Rattle.scql_model.specs.Database.{Database};
ghost use Rattle.scql_model.specs.Operations.{kind_of};
ghost use Rattle.scql_model.specs.WellFormed.{HasForm, FitsCard};
ghost use Rattle.cursor.specs.Costs.{RisesBetween};
ghost use Rattle.record_table.specs.Listed.{slots_of};
ghost use Rattle.record_table.specs.Making.{IsHeld, GoesOn};
ghost use Rattle.row_table.specs.Tables.{Ended, EndedBy, Stand};
ghost use Rattle.db_write.specs.Reached.{IsThrough};
ghost use Rattle.record_table.specs.AtRest.{IsAtRest};
ghost use Rattle.card.specs.Card.{HoldsSome};
ghost use Rattle.card.specs.Acting.{acting};
ghost use Rattle.db_read.specs.Scan.{IsRightFor};
ghost use Rattle.db_read.specs.Searched.{user_cells};
ghost use Rattle.card.specs.Changing as specs;
ghost use Rattle.card.specs.Changing.{Changes, ConcludesWithin, KeepsCatalog, MayBeMade, MayChange, StandAfter, TellsGone, goes_through_cursor, gone_after};

use db_access::{create_user, delete_user, grant, revoke};
use db_define::{create_dictionary, create_table, create_view, drop_table, drop_view};
use db_read::Scan;
use db_write::{delete, insert, update};
use eeprom::{Eeprom, EepromFault};
use record_store::{Side, SideReader, Store};
use record_table::{Stop, find_stamp, refused};
use row_table::Tables;
use scql_base::{Actor, Copied, Cursor, Operation, StatusWord, User};

/// Whether an operation changes rows, and leaves users, objects and grants as they are.
pub(crate) fn changes_rows(operation: &Operation) -> bool
    ensures { result ≡ specs.changes_rows (kind_of operation.now) }
{
    matches!(
        operation,
        Operation::Insert { .. } | Operation::Update { .. } | Operation::Delete
    )
}

/// Changes the database by an operation, for the user of this stamp or for the public, through a cursor where it is UPDATE or DELETE,
/// and commits it. Where the operation is refused nothing is written, and the word of the refusal is answered. For whom the user acts
/// isn't looked for where it is known. The stamp of a user who is deleted is told.
pub(crate) fn change<B: Eeprom>(
    tables: &mut Tables,
    bench: &mut B,
    user: Option<u32>,
    known: Option<Actor>,
    cursor: &Option<Cursor>,
    operation: &Operation,
    scan: &mut Scan,
    gone: &mut Option<u32>,
) -> Result<StatusWord, EepromFault>
    requires idle { tables.old.store.begun ≡ false }
    requires stand { Stand tables.old (B.chip bench.old) }
    requires holds { HoldsSome tables.old.store Committed (B.chip bench.old) }
    requires known { (db : Database) → IsHeld tables.old.store Committed (B.chip bench.old) db → IfSome known (λ actor. actor ≡ acting db user) }
    requires right { (db : Database) → IsHeld tables.old.store Committed (B.chip bench.old) db → IsRightFor db (acting db user) scan.old cursor.now }
    requires formed { HasForm operation.now }
    requires fits { FitsCard tables.old.store.row_limit operation.now }
    ensures changes { (db : Database) → IsAtRest tables.old.store (B.chip bench.old) db → IfSome cursor.now (IsCursorOf db)
        → Changes db (edits_of db (acting db user) cursor.now operation.now) result tables.new.store (B.chip bench.old) (B.chip bench.new) }
    ensures catalog { specs.changes_rows (kind_of operation.now) ≡ true → OnOk result (KeepsCatalog Committed tables.old.store tables.new.store (B.chip bench.old) (B.chip bench.new)) }
    ensures idle { OnOk result (tables.new.store.begun ≡ false) }
    ensures holds { OnOk result (HoldsSome tables.new.store Committed (B.chip bench.new)) }
    ensures cells { OnOk result (tables.new.store.chains.cells ≡ tables.old.store.chains.cells) }
    ensures scan_same { scan.new ≡ scan.old }
    ensures gone { (db : Database) (name : List ℕ) → IsAtRest tables.old.store (B.chip bench.old) db → operation.now ≡ asks.DeleteUser name → IfOk result (λ word. gone.new ≡ gone_after db name word gone.old) }
    ensures ends { StandAfter B.chip B.faults bench.old bench.new tables.old tables.new result }
{
    let actor = actor_known(&tables.store, bench, Side::Committed, user, known)?;
    tables.begin();
    match make(tables, bench, actor, cursor, operation, scan, gone) {
        Ok(()) => {
            tables.commit(bench)?;
            Ok(StatusWord::DONE)
        }
        Err(Stop::Refused { word }) => {
            tables.rollback();
            Ok(word)
        }
        Err(Stop::Fault) => Err(EepromFault),
    }
}

/// Changes the working database of a transaction that is open, as `change` does a committed one. What is committed stays.
pub(crate) fn change_within<B: Eeprom>(
    tables: &mut Tables,
    bench: &mut B,
    user: Option<u32>,
    known: Option<Actor>,
    cursor: &Option<Cursor>,
    operation: &Operation,
    scan: &mut Scan,
) -> Result<StatusWord, EepromFault>
    requires may { MayBeMade tables.old (B.chip bench.old) operation.now }
    requires works { HoldsSome tables.old.store Working (B.chip bench.old) }
    requires known { (db : Database) → IsHeld tables.old.store Working (B.chip bench.old) db → IfSome known (λ actor. actor ≡ acting db user) }
    requires right { (db : Database) → IsHeld tables.old.store Working (B.chip bench.old) db → IsRightFor db (acting db user) scan.old cursor.now }
    requires formed { HasForm operation.now }
    ensures changes { (db : Database) → IsHeld tables.old.store Working (B.chip bench.old) db → IfSome cursor.now (IsCursorOf db)
        → IfOk result (λ word. ConcludesWithin db (edits_of db (acting db user) cursor.now operation.now) word tables.old.store tables.new.store (B.chip bench.old) (B.chip bench.new)) }
    ensures catalog { specs.changes_rows (kind_of operation.now) ≡ true → OnOk result (KeepsCatalog Working tables.old.store tables.new.store (B.chip bench.old) (B.chip bench.new)) }
    ensures works { OnOk result (HoldsSome tables.new.store Working (B.chip bench.new)) }
    ensures committed { OnOk result (slots_of tables.new.store Committed (B.chip bench.new) ≡ slots_of tables.old.store Committed (B.chip bench.old)) }
    ensures goes_on { OnOk result (GoesOn tables.old.store tables.new.store (B.chip bench.old) (B.chip bench.new)) }
    ensures scan_same { scan.new ≡ scan.old }
    ensures moments { Keeps store_of (B.chip bench.old) (B.chip bench.new) }
    ensures ends { StandAfter B.chip B.faults bench.old bench.new tables.old tables.new result }
{
    let actor = actor_known(&tables.store, bench, Side::Working, user, known)?;
    let mut gone = None;
    match make(tables, bench, actor, cursor, operation, scan, &mut gone) {
        Ok(()) => Ok(StatusWord::DONE),
        Err(stop) => stop.answer(),
    }
}

// Makes the change on the working side of a transaction.
fn make<B: Eeprom>(
    tables: &mut Tables,
    bench: &mut B,
    actor: Actor,
    cursor: &Option<Cursor>,
    operation: &Operation,
    scan: &mut Scan,
    gone: &mut Option<u32>,
) -> Result<(), Stop>
    requires may { MayBeMade tables.old (B.chip bench.old) operation.now }
    requires right { (db : Database) → IsHeld tables.old.store Working (B.chip bench.old) db → IsRightFor db actor scan.old cursor.now }
    ensures ended { EndedBy B.chip B.faults (λ db. MayChange db actor operation.now) (λ db. IsThrough db (λ cursor. edits_of db actor cursor operation.now) cursor.now) bench.old bench.new tables.old tables.new result }
    ensures scan_same { scan.new ≡ scan.old }
    ensures gone { TellsGone tables.old.store (B.chip bench.old) operation.now result gone.old gone.new }
{
    match operation {
        Operation::Update { changes } => update(tables, bench, actor, cursor, changes, scan),
        Operation::Delete => delete(tables, bench, actor, cursor, scan),
        operation => make_without_cursor(tables, bench, actor, operation, gone),
    }
}

// Makes a change that goes through no cursor, so that it ends alike whichever it is. The stamp of a user who is deleted is told.
fn make_without_cursor<B: Eeprom>(
    tables: &mut Tables,
    bench: &mut B,
    actor: Actor,
    operation: &Operation,
    gone: &mut Option<u32>,
) -> Result<(), Stop>
    requires may { MayBeMade tables.old (B.chip bench.old) operation.now }
    requires no_cursor { goes_through_cursor (kind_of operation.now) ≡ false }
    ensures ended { (cursor : Option model.Cursor) → Ended B.chip B.faults (λ db. MayChange db actor operation.now) (λ db. edits_of db actor cursor operation.now) bench.old bench.new tables.old tables.new result }
    ensures gone { TellsGone tables.old.store (B.chip bench.old) operation.now result gone.old gone.new }
{
    match operation {
        Operation::CreateTable { name, columns } => {
            create_table(tables, bench, actor, name.copy(), columns)
        }
        Operation::CreateView {
            name,
            base,
            columns,
            conditions,
        } => create_view(
            tables,
            bench,
            actor,
            name.copy(),
            base.copy(),
            columns,
            conditions,
        ),
        Operation::CreateDictionary { name, subject } => {
            create_dictionary(tables, bench, actor, name.copy(), *subject)
        }
        Operation::DropTable { name } => drop_table(tables, bench, actor, name.copy()),
        Operation::DropView { name } => drop_view(tables, bench, actor, name.copy()),
        Operation::Grant {
            privileges,
            object,
            grantee,
        } => grant(
            tables,
            bench,
            actor,
            *privileges,
            object.copy(),
            grantee.copy(),
        ),
        Operation::Revoke {
            privileges,
            object,
            grantee,
        } => revoke(
            tables,
            bench,
            actor,
            *privileges,
            object.copy(),
            grantee.copy(),
        ),
        Operation::Insert { table, row } => insert(tables, bench, actor, table.copy(), row),
        Operation::CreateUser {
            name,
            profile,
            secret,
        } => create_user(tables, bench, actor, name.copy(), *profile, secret),
        Operation::DeleteUser { name } => {
            *gone = Some(delete_user(tables, bench, actor, name.copy())?);
            Ok(())
        }
        _ => refused(StatusWord::INSTRUCTION_NOT_SUPPORTED),
    }
}

// For whom the user of a stamp acts, which isn't looked for where it is known.
fn actor_known<B: Eeprom>(
    store: &Store,
    bench: &mut B,
    side: Side,
    user: Option<u32>,
    known: Option<Actor>,
) -> Result<Actor, EepromFault>
    requires over { IsOver store.now (B.chip bench.old) }
    requires known { (db : Database) → IsHeld store.now side (B.chip bench.old) db → IfSome known (λ actor. actor ≡ acting db user) }
    ensures actor { (db : Database) → IsHeld store.now side (B.chip bench.old) db → IfOk result (λ actor. actor ≡ acting db user) }
    ensures frame { Reads each_error B.chip B.faults bench.old bench.new result }
{
    match known {
        Some(actor) => Ok(actor),
        None => actor_of(store, bench, side, user),
    }
}

/// For whom the user of a stamp acts: for itself, with its profile, or for the public where a side has no such user.
pub(crate) fn actor_of<B: Eeprom>(
    store: &Store,
    bench: &mut B,
    side: Side,
    user: Option<u32>,
) -> Result<Actor, EepromFault>
    requires over { IsOver store.now (B.chip bench.old) }
    ensures actor { (db : Database) → IsHeld store.now side (B.chip bench.old) db → IfOk result (λ actor. actor ≡ acting db user) }
    ensures octets_read { (db : Database) → IsHeld store.now side (B.chip bench.old) db
        → IfOk result (λ actor. Becomes (RisesBetween 0 (cell_size * user_cells db.users (actor_stamp actor))) (B.octets_read bench.old) (B.octets_read bench.new)) }
    ensures frame { Reads each_error B.chip B.faults bench.old bench.new result }
{
    let Some(stamp) = user else {
        return Ok(Actor::Public);
    };
    let mut reader = SideReader { store, bench, side };
    match find_stamp::<User, B>(&mut reader, stamp)? {
        Some(found) => Ok(Actor::User {
            stamp: found.value.stamp,
            profile: found.value.profile,
        }),
        None => Ok(Actor::Public),
    }
}
