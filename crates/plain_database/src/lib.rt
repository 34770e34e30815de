//! A database as plain lists in memory, for whoever goes over what a card did: its rights, its searches and its changing operations.
#![tactic(auto)]

mod assigning;
mod at_cursor;
mod change;
mod changing;
mod columns;
mod creating;
mod database;
mod dropping;
mod filling;
mod granting;
mod inserting;
mod making;
mod matching;
mod privilege;
mod reaching;
mod record;
mod replacing;
mod resolved;
mod rights;
mod room;
mod row_writing;
mod searches;
mod seen;
mod sizes;
mod sought;
mod stamped;
mod user_creating;
mod user_deleting;
mod valid;

pub use columns::{are_named_among, wanted_of};
pub use database::PlainDatabase;
pub use matching::{cut_to, matches, value_of};
pub use privilege::Privilege;
pub use reaching::is_opened;
pub use resolved::Resolved;
pub use seen::ShownRow;
pub use sought::Sought;
pub use stamped::{Rising, Stamped};
pub use valid::ValidDatabase;
