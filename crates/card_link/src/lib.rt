//! A card that is asked: commands go in, replies come back.
#![tactic(auto)]

mod failing_link;
mod link;
mod outcome;
mod recorder;

pub use failing_link::FailingLink;
pub use link::{CardLink, Desk};
pub use outcome::Outcome;
pub use recorder::Recorder;
