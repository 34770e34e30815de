//! The objects of a card in the slots of a store.
#![tactic(auto)]

mod finding;

pub use finding::{find_name_into, find_stamp_into};
