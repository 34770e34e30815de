//! The grants of a card in the slots of a store.
#![tactic(auto)]

mod finding;
mod privileges;
mod rights;

pub use finding::find_pair;
pub use privileges::held;
pub use rights::{
    Privilege, Rights, actor_stamp, find_seen, find_seen_into, is_owned_by, rights_on,
};
