//! The plain database to which an image opens, read without a card's store.
#![tactic(auto)]

mod cells;
mod chains;
mod counters;
mod filling;
mod grants;
mod header;
mod journal;
mod objects;
mod octets;
mod opening;
mod rows;
mod searches;
mod slot;
mod slots;
mod stamps;
mod store;
mod users;
mod validity;

pub use opening::open;
pub use store::PlainStore;
