//! Queries over several objects, as a person writes them on a line.
#![tactic(auto)]

mod blank;
mod grammar;
mod lists;
mod query;
mod reading;
mod resolving;
#[cfg(test)]
mod tests;
mod written;

pub use lists::{Columns, Equalities};
pub use query::{AskedObject, Query};
