//! Records in numbered slots of a card's EEPROM, kept in chains of cells.
#![tactic(auto)]

mod common_runs;
mod entries;
mod first_octets;
mod found;
mod fresh;
mod header;
mod layout;
mod opening;
mod refusal;
mod side;
mod side_reader;
mod slot_tags;
mod slots;
mod store;
mod tags;
mod touched;
mod uncalled;
mod writer;

pub use cell_store::RecordOctets;
pub use found::Found;
pub use opening::Opening;
pub use refusal::{FormatRefusal, OpenRefusal, StoreRefusal};
pub use side::Side;
pub use side_reader::SideReader;
pub use store::Store;
pub use tags::{Tag, name_tag, pair_tag};

#[cfg(test)]
mod tests;
