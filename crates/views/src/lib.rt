//! Tables and views, resolved: on which table they rest, which of its columns they show, and which of its rows.
#![tactic(auto)]

mod answering;
mod layer;
mod resolving;

pub use answering::resolve;
pub use resolving::{DEEPEST, Places, Resolved, places_of, resolve_into};
