// VERIFY.
ghost use Rattle.std.specs.Prelude.{◌≡◌, ◌+◌, ◌-◌, ◌<◌, Some, drop, IfOk, IfSome, IsErrOf, option_map};
ghost use Rattle.std.specs.List.{find};
ghost use Rattle.std.specs.Str.{bytes_eq};
ghost use Rattle.eeprom.specs.Chip.{Keeps};
ghost use Rattle.eeprom.specs.Fault.{CountsFaults, each_error};
ghost use Rattle.eeprom.specs.Frame.{Reads};
ghost use Rattle.eeprom.specs.Slots.{Rises, has};
ghost use Rattle.eeprom.specs.StoreOf.{image_size};
ghost use Rattle.record_store.specs.Held.{IsOver};
ghost use Rattle.record_store.specs.declared.side.Side.{Side};
ghost use Rattle.record_store.specs.declared.side.Side.TheVariants.{Committed};
ghost use Rattle.scql_base.specs.Words.{done, tries_left};
ghost use Rattle.scql_base.specs.declared.records.User.{User};
ghost use Rattle.scql_model.specs.Database.{Database, user_stamped};
ghost use Rattle.scql_model.specs.Step.{with_tries};
ghost use Rattle.catalog_codec.specs.Catalog.{user_kind};
ghost use Rattle.record_table.specs.AtRest.{IsAtRest, IsIdleOver, LeavesOnce};
ghost use Rattle.record_table.specs.Listed.{at_slot, listed, slots_of};
ghost use Rattle.record_table.specs.Making.{GoesOn, KeepsRows, is_stop_fault};
ghost use Rattle.db_access.specs.Verifying.{HoldsSecret, VerifiesSecret, VerifiesUnrefused, octets_for_verdict, verdict};

use eeprom::{Eeprom, EepromFault};
use record_store::{Found, Side, SideReader, Store};
use record_table::{Stop, commit_in_place};
use scql_base::{StatusWord, User};
use user_table::find_stamp;

/// Compares a secret with that of a committed user, which costs one try until it was right. Each change of the tries is committed.
pub fn verify<B: Eeprom>(
    store: &mut Store,
    bench: &mut B,
    user: u32,
    secret: &[u8],
) -> Result<StatusWord, EepromFault>
    requires rests { IsIdleOver store.old (B.chip bench.old) }
    ensures { VerifiesSecret B.chip B.faults user secret.now bench.old bench.new store.old store.new result }
{
    match try_secret(store, bench, user, secret) {
        Ok(word) => Ok(word),
        // Tries never change the length of a record, so a card has room for them.
        Err(stop) => stop.answer(),
    }
}

// Lowers the tries, and then compares: so a power loss costs the try.
fn try_secret<B: Eeprom>(
    store: &mut Store,
    bench: &mut B,
    user: u32,
    secret: &[u8],
) -> Result<StatusWord, Stop>
    requires rests { IsIdleOver store.old (B.chip bench.old) }
    ensures verifies { (db : Database) → HoldsSecret store.old (B.chip bench.old) db user
        → VerifiesUnrefused db (verdict db user secret.now) (octets_for_verdict db user secret.now) result store.new (B.chip bench.old) (B.chip bench.new) }
    ensures lowered { (db : Database) (holder : User) → HoldsSecret store.old (B.chip bench.old) db user → user_stamped db.users user ≡ Some holder
        → IfOk result (λ word. word ≡ done → LeavesOnce (with_tries db holder (holder.tries - 1)) (B.chip bench.old) (B.chip bench.new)) }
    ensures holds { (db : Database) → IsAtRest store.old (B.chip bench.old) db → ¬ IsErrOf result Stop.Fault → (next : Database) × IsAtRest store.new (B.chip bench.new) next }
    ensures goes_on { ¬ IsErrOf result Stop.Fault → GoesOn store.old store.new (B.chip bench.old) (B.chip bench.new) }
    ensures rows { ¬ IsErrOf result Stop.Fault → KeepsRows (slots_of store.old Committed (B.chip bench.old)) (slots_of store.new Committed (B.chip bench.new)) }
    ensures behind { Keeps (drop (image_size store.old.chains.cells)) (B.chip bench.old) (B.chip bench.new) }
    ensures cause { CountsFaults is_stop_fault (B.faults bench.old) (B.faults bench.new) result }
{
    let Some(
        Found {
            slot,
            value: mut holder,
        },
    ) = find_committed(store, bench, user)?
    else {
        return Ok(StatusWord::CONDITIONS_NOT_SATISFIED);
    };
    // A user without a secret is proved already.
    if holder.secret.as_slice().is_empty() {
        return Ok(StatusWord::CONDITIONS_NOT_SATISFIED);
    }
    if holder.tries == 0 {
        return Ok(StatusWord::AUTHENTICATION_BLOCKED);
    }
    holder.tries -= 1;
    commit_in_place(store, bench, slot, &holder)?;
    if !is_same(secret, holder.secret.as_slice()) {
        return Ok(wrong_secret(holder.tries));
    }
    holder.tries = User::ALL_TRIES;
    commit_in_place(store, bench, slot, &holder)?;
    Ok(StatusWord::DONE)
}

// Finds the user of a stamp in the committed database.
fn find_committed<B: Eeprom>(
    store: &Store,
    bench: &mut B,
    user: u32,
) -> Result<Option<Found<User>>, EepromFault>
    requires over { IsOver store.now (B.chip bench.old) }
    ensures there { IfOk result (λ found. IfSome found (λ found. found.slot < store.now.chains.cells)) }
    ensures at { IfOk result (λ found. IfSome found (λ found. IfSome (slots_of store.now Committed (B.chip bench.old)) (λ slots. Some found.value ≡ at_slot user_kind found.slot slots))) }
    ensures found { IfOk result (λ found. IfSome (slots_of store.now Committed (B.chip bench.old))
        (λ slots. Rises user_kind.key (listed user_kind slots) → option_map (λ found. found.value) found ≡ find (has user_kind.key user) (listed user_kind slots))) }
    ensures frame { Reads each_error B.chip B.faults bench.old bench.new result }
{
    let mut reader = SideReader {
        store,
        bench,
        side: Side::Committed,
    };
    find_stamp(&mut reader, user)
}

// What a wrong secret answers, with so many tries left.
fn wrong_secret(tries: u8) -> StatusWord
    ensures { result ≡ tries_left tries }
{
    StatusWord {
        word: 0x63C0 + tries.min(15) as u16,
    }
}

// Whether two secrets are the same. A difference doesn't end the comparison, so its time doesn't tell where it is.
fn is_same(given: &[u8], kept: &[u8]) -> bool
    ensures { result ≡ bytes_eq given.now kept.now }
{
    let mut same = given.len() == kept.len();
    for place in 0..given.len().min(kept.len()) {
        same = same & (given[place] == kept[place]);
    }
    same
}
