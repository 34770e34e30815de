//! Conditions on the rows of some columns, bound to the places of those columns.
#![tactic(auto)]

mod bound;
mod comparing;
mod placed;

pub use bound::{Bound, bind, bind_into, meets_each};
pub use placed::Placed;
