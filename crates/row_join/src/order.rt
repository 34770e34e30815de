// Combinations in the order of columns.
ghost use Rattle.std.specs.Prelude.{◌≡◌, OnOk};
ghost use Rattle.row_join.specs.Joins.{compare_values, ordered, values_at};
ghost use Rattle.row_join.specs.Places.{all_rows, rows_of};

use crate::values::value_at;
use crate::{Column, Combination, Fetched};
use eeprom::Heap;
use std::alloc::AllocError;
use std::cmp::Ordering;

/// Puts combinations in the order of their values in columns, the first of them before all others. Those that tie stay as they stood.
pub fn sort_combinations(
    tables: &[Fetched],
    order: &[Column],
    combinations: &mut Vec<Combination, Heap>,
) -> Result<(), AllocError>
    ensures { OnOk result (all_rows tables.now combinations.new.items ≡ ordered order.now (all_rows tables.now combinations.old.items)) }
{
    combinations.sort_by(|first, second| compare_rows(tables, order, first, second))
}

// How the values of two combinations compare.
fn compare_rows(
    tables: &[Fetched],
    order: &[Column],
    first: &Combination,
    second: &Combination,
) -> Ordering
    ensures { result ≡ compare_values (values_at order.now (rows_of tables.now first.now.places)) (values_at order.now (rows_of tables.now second.now.places)) }
{
    for column in order {
        let other = value_at(tables, second, *column);
        match value_at(tables, first, *column).cmp(other) {
            Ordering::Equal => {}
            unequal => return unequal,
        }
    }
    Ordering::Equal
}
