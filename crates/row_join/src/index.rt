// The rows of an object in the order of the values by which it is joined to the objects before it.
ghost use Rattle.std.specs.Prelude.{◌≡◌, IfOk, map};
ghost use Rattle.std.specs.List.{filter};
ghost use Rattle.row_join.specs.Joins.{compare_values};
ghost use Rattle.row_join.specs.Links.{key_of, links_of, meets_own, probe_of};
ghost use Rattle.row_join.specs.Places.{IsIndex, IsOrdered, row_at, rows_of, with_key};

use crate::link::Link;
use crate::values::{value_at, value_of};
use crate::{Combination, Equality, Fetched};
use eeprom::Heap;
use scql_base::Row;
use std::alloc::AllocError;
use std::cmp::Ordering;

/// The places of the rows that meet an object's own equalities, in the order of their values in the linked columns.
#[derive(Drop)]
pub(crate) struct Index {
    pub(crate) links: Vec<Link, Heap>,
    pub(crate) places: Vec<usize, Heap>,
}

impl Index {
    // The index of an object's rows.
    pub(crate) fn new(
        alloc: Heap,
        object: usize,
        rows: &[Row],
        equalities: &[Equality],
    ) -> Result<Index, AllocError>
        ensures { IfOk result (λ index. IsIndex object equalities.now rows.now index.links.items index.places.items) }
    {
        let links = links_from(alloc, object, equalities)?;
        let mut places = places_from(alloc, object, rows, equalities)?;
        places.sort_by(|first, second| compare_keys(links.as_slice(), rows, *first, *second))?;
        Ok(Index { links, places })
    }

    // The places of the rows that go with these rows of the objects before.
    pub(crate) fn find(
        &self,
        rows: &[Row],
        before: &[Fetched],
        combination: &Combination,
    ) -> &[usize]
        requires ordered { IsOrdered self.now.links.items rows.now self.now.places.items }
        ensures { result.now ≡ with_key self.now.links.items rows.now (probe_of self.now.links.items (rows_of before.now combination.now.places)) self.now.places.items }
    {
        let probe = Probe {
            links: self.links.as_slice(),
            rows,
            before,
            combination,
        };
        let first = self
            .places
            .partition_point(|place| probe.compare(*place).is_lt());
        let (_, rest) = self.places.split_at(first);
        let count = rest.partition_point(|place| probe.compare(*place).is_le());
        let (found, _) = rest.split_at(count);
        found
    }
}

// The values by which an object's rows are looked up: those that they are to have, where they stand.
#[derive(Drop)]
struct Probe<'a> {
    links: &'a [Link],
    rows: &'a [Row],
    before: &'a [Fetched],
    combination: &'a Combination,
}

impl Probe<'_> {
    // How the linked values of a row compare with those that they are to be.
    fn compare(&self, place: usize) -> Ordering
        ensures { result ≡ compare_values (key_of self.now.links.now (row_at self.now.rows.now place)) (probe_of self.now.links.now (rows_of self.now.before.now self.now.combination.now.places)) }
    {
        for link in self.links {
            let other = value_at(self.before, self.combination, link.other);
            match value_of(self.rows, place, link.place).cmp(other) {
                Ordering::Equal => {}
                unequal => return unequal,
            }
        }
        Ordering::Equal
    }
}

// How an object is joined to those before it.
fn links_from(
    alloc: Heap,
    object: usize,
    equalities: &[Equality],
) -> Result<Vec<Link, Heap>, AllocError>
    ensures { IfOk result (λ links. links.items ≡ links_of object equalities.now) }
{
    let mut links = Vec::new(alloc);
    for equality in equalities {
        if let Some(link) = equality.link(object) {
            links.push(link)?;
        }
    }
    Ok(links)
}

// The places of the rows that meet an object's own equalities.
fn places_from(
    alloc: Heap,
    object: usize,
    rows: &[Row],
    equalities: &[Equality],
) -> Result<Vec<usize, Heap>, AllocError>
    ensures { IfOk result (λ places. map (row_at rows.now) places.items ≡ filter (meets_own object equalities.now) rows.now) }
{
    let mut places = Vec::new(alloc);
    for place in 0..rows.len() {
        if is_own_met(object, equalities, rows, place) {
            places.push(place)?;
        }
    }
    Ok(places)
}

// A row meets an object's own equalities.
fn is_own_met(object: usize, equalities: &[Equality], rows: &[Row], place: usize) -> bool
    ensures { result ≡ meets_own object equalities.now (row_at rows.now place) }
{
    equalities
        .iter()
        .all(|equality| equality.is_met_by(object, rows, place))
}

// How the linked values of two rows compare.
fn compare_keys(links: &[Link], rows: &[Row], first: usize, second: usize) -> Ordering
    ensures { result ≡ compare_values (key_of links.now (row_at rows.now first)) (key_of links.now (row_at rows.now second)) }
{
    for link in links {
        match value_of(rows, first, link.place).cmp(value_of(rows, second, link.place)) {
            Ordering::Equal => {}
            unequal => return unequal,
        }
    }
    Ordering::Equal
}
