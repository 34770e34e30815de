//! Statements as commands: which command comes next, by the answers so far.
#![tactic(auto)]

mod closing;
pub mod laws;
mod plan;
mod row_octets;
mod stage;
mod step;
mod words;

pub use closing::Closing;
pub use plan::Plan;
pub use step::Step;
