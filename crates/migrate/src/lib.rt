//! The change of a card's version: a migrated card takes rows of up to 1,020 octets, and keeps its records.
#![tactic(auto)]

mod version;

pub use version::migrate;
