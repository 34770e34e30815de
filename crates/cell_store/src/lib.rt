//! Cells of a card's EEPROM: chains of them hold records, and no cell is in two chains.
#![tactic(auto)]

mod chain;
mod claims;
mod layout;
mod marks;
mod placing;
mod refusal;
mod store;
mod uncalled;

pub use eeprom::{NO_CELL, RecordOctets};
pub use layout::{number_of, octets_of};
pub use refusal::{CellRefusal, ClaimRefusal};
pub use store::{CellStore, cells_for};
