//! Operations that write rows.
#![tactic(auto)]

mod assigning;
mod deleting;
mod inserting;
mod reaching;
mod updating;

pub use deleting::delete;
pub use inserting::insert;
pub use updating::update;
