//! Operations that make and drop objects.
#![tactic(auto)]

mod base;
mod dictionary;
mod dropped;
mod dropping;
mod making;
mod table;
mod view;

pub use dictionary::create_dictionary;
pub use table::{create_table, drop_table};
pub use view::{create_view, drop_view};
