// How many records of each kind are committed.
ghost use Rattle.std.specs.Prelude.{◌≡◌, ◌<◌, ℕ, List, Some, count_by, slice_index_or, None};
ghost use Rattle.eeprom.specs.StoreOf.{Slots};
ghost use Rattle.record_store.specs.Held.{StandsFor, contents};
ghost use Rattle.record_store.specs.declared.side.Side.TheVariants.{Committed};
ghost use Rattle.record_table.specs.Listed.{has_kind_mark};
ghost use Rattle.scql_model.specs.Database.{Database};
ghost use Rattle.scql_model.specs.Opens.{Holds};
ghost use Rattle.card.specs.Counting.{counts_of};

use catalog_codec::Record;
use record_store::{Side, Store};
use scql_base::{Grant, Object, RowRecord, User};

/// How many users, objects, grants and rows a card has, and how many cells all its records take, of so many.
#[derive(Clone, Copy, PartialEq, Eq, Debug)]
pub struct Counts {
    pub users: u16,
    pub objects: u16,
    pub grants: u16,
    pub rows: u16,
    pub weight: u16,
    pub cells: u16,
}

/// Counts the committed records. The kind of each is kept in memory, so that nothing is read.
pub(crate) fn count_records(store: &Store) -> Counts
    ensures { (image : List ℕ) (slots : Slots) (db : Database) → StandsFor store.now image → contents store.now Committed image ≡ Some slots → Holds slots db → result ≡ counts_of db }
{
    Counts {
        users: count_kind::<User>(store),
        objects: count_kind::<Object>(store),
        grants: count_kind::<Grant>(store),
        rows: count_kind::<RowRecord>(store),
        weight: store.weight(Side::Committed),
        cells: store.cells(),
    }
}

// How many records of a kind are committed.
fn count_kind<R: Record>(store: &Store) -> u16
    ensures { (image : List ℕ) (slots : Slots) → StandsFor store.now image → contents store.now Committed image ≡ Some slots → result ≡ count_by (has_kind_mark R.kind) slots }
{
    let mut count = 0;
    for slot in 0..store.cells() {
        if is_marked::<R>(store, slot) {
            count += 1;
        }
    }
    count
}

// Whether the first octet of a slot's record is a mark of the kind.
fn is_marked<R: Record>(store: &Store, slot: u16) -> bool
    requires { slot < store.now.chains.cells }
    ensures { (image : List ℕ) (slots : Slots) → StandsFor store.now image → contents store.now Committed image ≡ Some slots → result ≡ has_kind_mark R.kind (slice_index_or slots slot None) }
{
    match store.first_octet(Side::Committed, slot) {
        Some(octet) => R::has_mark(octet),
        None => false,
    }
}
