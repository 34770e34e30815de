// Slots in rising order of the keys of their rows. What is said of a search holds where they are in this order.
ghost use Rattle.std.specs.Prelude.{◌≡◌, ◌≤◌, ◌==◌, IsTrue, count_by, false, length, nat_lt, nat_le, slice_get};
ghost use Rattle.std.specs.List.{list_all};
ghost use Rattle.std.specs.Option.{option_map_or};
ghost use Rattle.eeprom.specs.Slots.{Rises};
ghost use Rattle.row_index.specs.Places.{place_key};
ghost use Rattle.row_index.specs.SideRows.{CountsPlaces, place_at, places_at};

use crate::columns::Columns;

// Whether all keys are below a number. Where the last is, all are.
fn are_below(slots: &[u16], columns: &Columns<'_>, key: u64) -> bool
    ensures below { Rises place_key (places_at columns.now.stamps.now columns.now.tables.now slots.now) → result ≡ list_all (λ place. nat_lt (place_key place) key) (places_at columns.now.stamps.now columns.now.tables.now slots.now) }
{
    match slots.last() {
        Some(slot) => columns.place(*slot).key() < key,
        None => true,
    }
}

// Whether all keys are above a number. Where the first is, all are.
fn are_above(slots: &[u16], columns: &Columns<'_>, key: u64) -> bool
    ensures above { Rises place_key (places_at columns.now.stamps.now columns.now.tables.now slots.now) → IsTrue result
        → count_by (λ place. nat_le (place_key place) key) (places_at columns.now.stamps.now columns.now.tables.now slots.now) ≡ 0 }
{
    match slots.first() {
        Some(slot) => key < columns.place(*slot).key(),
        None => true,
    }
}

// How many keys are below a number.
pub(crate) fn count_below(slots: &[u16], columns: &Columns<'_>, key: u64) -> usize
    ensures { CountsPlaces columns.now.stamps.now columns.now.tables.now slots.now (λ place. nat_lt (place_key place) key) result }
{
    slots.partition_point(|slot| columns.place(*slot).key() < key)
}

// The same. Where the number is the key at the place `near`, nothing is searched for.
pub(crate) fn count_below_near(slots: &[u16], columns: &Columns<'_>, key: u64, near: usize) -> usize
    ensures { CountsPlaces columns.now.stamps.now columns.now.tables.now slots.now (λ place. nat_lt (place_key place) key) result }
{
    match slots.get(near) {
        Some(slot) if columns.place(*slot).key() == key => near,
        _ => count_below(slots, columns, key),
    }
}

// How many keys are at most a number.
pub(crate) fn count_up_to(slots: &[u16], columns: &Columns<'_>, key: u64) -> usize
    ensures { CountsPlaces columns.now.stamps.now columns.now.tables.now slots.now (λ place. nat_le (place_key place) key) result }
{
    slots.partition_point(|slot| columns.place(*slot).key() <= key)
}

// The same. Where the number is the key at the place `near`, or has its own place there, nothing is searched for.
pub(crate) fn count_up_to_near(slots: &[u16], columns: &Columns<'_>, key: u64, near: usize) -> usize
    ensures { CountsPlaces columns.now.stamps.now columns.now.tables.now slots.now (λ place. nat_le (place_key place) key) result }
{
    match slots.get(near) {
        Some(slot) if columns.place(*slot).key() == key => near + 1,
        _ if belongs_at(slots, columns, key, near) => near,
        _ => count_up_to(slots, columns, key),
    }
}

// Whether all keys before a place are below a number, and all behind it above.
fn belongs_at(slots: &[u16], columns: &Columns<'_>, key: u64, at: usize) -> bool
    ensures bound { IsTrue result → at ≤ length slots.now }
    ensures count { Rises place_key (places_at columns.now.stamps.now columns.now.tables.now slots.now) → IsTrue result
        → at ≡ count_by (λ place. nat_le (place_key place) key) (places_at columns.now.stamps.now columns.now.tables.now slots.now) }
{
    let Some((before, behind)) = slots.split_at_checked(at) else {
        return false;
    };
    are_below(before, columns, key) && are_above(behind, columns, key)
}

// Whether a slot is at a place among some.
pub(crate) fn stands_at(slots: &[u16], at: usize, slot: u16) -> bool
    ensures { result ≡ option_map_or (λ other. other == slot) (slice_get slots.now at) false }
{
    match slots.get(at) {
        Some(other) => *other == slot,
        None => false,
    }
}

// How many slots come before one in order. Where it stands at the place `near`, nothing is searched for.
pub(crate) fn count_before(slots: &[u16], columns: &Columns<'_>, slot: u16, near: usize) -> usize
    ensures count { Rises place_key (places_at columns.now.stamps.now columns.now.tables.now slots.now)
        → result ≡ count_by (λ place. nat_lt (place_key place) (place_key (place_at columns.now.stamps.now columns.now.tables.now slot))) (places_at columns.now.stamps.now columns.now.tables.now slots.now) }
{
    if stands_at(slots, near, slot) {
        near
    } else {
        count_below(slots, columns, columns.place(slot).key())
    }
}
