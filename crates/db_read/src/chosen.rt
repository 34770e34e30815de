// What a cursor chooses of the rows of a table.
ghost use Rattle.std.specs.Prelude.{◌≡◌, IsTrue, length, true};
ghost use Rattle.std.specs.List.{list_all};
ghost use Rattle.search_cond.specs.Bound.{passes};
ghost use Rattle.scql_base.specs.Row.{are_a_row};
ghost use Rattle.scql_model.specs.Matching.{Values};
ghost use Rattle.db_read.specs.Chosen as specs;
ghost use Rattle.db_read.specs.Chosen.{values_at};

use crate::scan::Choice;
use scql_base::Row;
use search_cond::{Bound, Placed, meets_each};
use views::Places;

/// The rows of a table that a cursor chooses, and their values that it shows.
#[derive(Drop)]
pub(crate) struct Chosen<'a> {
    /// The stamp of the table.
    pub(crate) table: u32,
    /// The places of the cursor's columns among the table's.
    pub(crate) places: &'a Places,
    /// The cursor's conditions.
    pub(crate) conditions: &'a [Placed],
    /// The conditions of the views between.
    pub(crate) filters: &'a [Bound],
}

impl<'a> Chosen<'a> {
    /// The rows of a table, as they were chosen.
    pub(crate) fn of(choice: &'a Choice) -> Chosen<'a>
        ensures table { result.table ≡ choice.now.resolved.table }
        ensures places { result.places.now ≡ choice.now.places }
        ensures conditions { result.conditions.now ≡ choice.now.conditions }
        ensures filters { result.filters.now ≡ choice.now.resolved.filters.items }
    {
        Chosen {
            table: choice.resolved.table,
            places: &choice.places,
            conditions: choice.conditions.as_slice(),
            filters: choice.resolved.filters.as_slice(),
        }
    }

    /// Whether each row of the table is among those chosen, since there are no conditions.
    pub(crate) fn shows_all(&self) -> bool
        ensures { IsTrue result → (values : Values) → specs.is_shown self.now values ≡ true }
    {
        self.conditions.is_empty() && self.filters.is_empty()
    }

    /// Whether a row of the table is among those chosen.
    pub(crate) fn shows(&self, row: &Row) -> bool
        ensures { result ≡ specs.is_shown self.now row.now }
    {
        meets_each(row, self.conditions) && passes_each(self.filters, row)
    }
}

fn passes_each(filters: &[Bound], row: &Row) -> bool
    ensures { result ≡ list_all (passes row.now) filters.now }
{
    filters.iter().all(|filter| filter.matches(row))
}

/// Becomes the values at places of a row. What isn't a row is cut short.
#[inline(always)]
pub(crate) fn cut_into(places: &Places, row: &Row, out: &mut Row)
    ensures { are_a_row (values_at places.now.items row.now) ≡ true → out.new ≡ values_at places.now.items row.now }
{
    if are_all(places.as_slice(), row.len()) {
        take_over(row, out);
    } else {
        cut_each(places, row, out);
    }
}

// Whether these are the places of so many values, in their order.
fn are_all(places: &[u8], count: usize) -> bool
    ensures { IsTrue result → (values : Values) → length values ≡ count → values_at places.now values ≡ values }
{
    let mut next = 0;
    for place in places {
        if usize::from(*place) != next {
            return false;
        }
        next += 1;
    }
    next == count
}

// Becomes the same row, whose values are taken over as one run.
fn take_over(row: &Row, out: &mut Row)
    ensures { out.new ≡ row.now }
{
    prove!(row.len() <= Row::MOST);
    let taken = out.read_into(row.octets()).is_some();
    prove!(taken);
}

// Becomes the values at places of a row, one by one.
#[inline(never)]
fn cut_each(places: &Places, row: &Row, out: &mut Row)
    ensures { are_a_row (values_at places.now.items row.now) ≡ true → out.new ≡ values_at places.now.items row.now }
{
    let emptied = out.read_into(&[]).is_some();
    prove!(emptied);
    for place in places.as_slice() {
        let value = row.get(usize::from(*place)).unwrap_or(&[]);
        let _ = out.push(value);
    }
}
