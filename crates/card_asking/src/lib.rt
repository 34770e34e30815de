//! What asks a card, over any link: a command in its parts, a user presented, and the steps of a plan.
#![tactic(auto)]

mod asking;
mod following;
pub mod laws;
mod mute;
mod presenting;
#[cfg(test)]
mod tests;

pub use asking::ask;
pub use following::{carry_out, follow};
pub use mute::Mute;
pub use presenting::{Unpresented, present};
