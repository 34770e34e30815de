//! A redo journal behind a gate: a directory takes all entries of a commit or none of them, whenever power is lost.
#![tactic(auto)]

mod journal;
mod octets;
mod reading;
mod redo;
mod refusal;
mod run;
mod writing;

pub use eeprom::Entry;
pub use journal::Journal;
pub use refusal::ReplayRefusal;
