//! A store with the index of its rows, as one value.
#![tactic(auto)]

mod tables;

pub use tables::Tables;
