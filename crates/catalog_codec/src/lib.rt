//! Records of a card in octets and back, of each kind: the counter of stamps, users, objects, grants and rows.
#![tactic(auto)]

mod counter;
mod fields;
mod grant;
mod lists;
mod object;
mod record;
mod row;
mod user;
mod writing;

pub use record::Record;
pub use scql_base::Counter;
