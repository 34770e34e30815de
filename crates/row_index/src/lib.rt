//! Where the rows of a store stand, in memory: the rows of each table one behind the other, in order of their stamps.
#![tactic(auto)]

mod columns;
mod done;
mod index;
mod order;
mod place;
mod side_rows;

pub use index::RowIndex;
pub use place::RowPlace;

#[cfg(test)]
mod tests;
