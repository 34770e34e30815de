//! Dictionaries: the objects, users and grants of a card as rows.
#![tactic(auto)]

mod columns;
mod grants;
mod names;
mod next;
mod objects;
mod rows;
mod telling;
mod texts;
mod users;

pub use columns::columns_of;
pub use next::next_after;

#[cfg(test)]
mod tests;
