//! Records of any kind in the slots of a store: finding, adding, changing and removing them, once for all kinds.
#![tactic(auto)]

mod after;
mod changing;
mod committing;
mod editable;
mod entry;
mod finding;
mod in_place;
mod making;
mod next;
mod stop;
mod sweeping;
mod wanted;

pub use after::next_after;
pub use changing::{add, change, remove};
pub use committing::commit_in_place;
pub use editable::Editable;
pub use entry::{next_slot, next_tagged, read_entry};
pub use finding::{find_by, find_into, find_stamp, find_stamp_into};
pub use in_place::{change_in_place, take_out};
pub use making::{make, next_stamp};
pub use next::next_by;
pub use stop::{Stop, refused};
pub use sweeping::remove_each;
pub use wanted::{Any, Stamped, Wanted};

#[cfg(test)]
mod tests;
