//! The users of a card in the slots of a store.
#![tactic(auto)]

mod finding;

pub use finding::{find_name, find_stamp};

#[cfg(test)]
mod tests;
