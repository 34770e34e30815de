//! An audit: a transcript of what a card was asked and said is held against the table machine.
#![tactic(auto)]

mod answering;
mod comparing;
mod judging;
mod progress;
mod reading;
mod run;
mod status;
mod text;
mod transcript;
mod verdict;

pub use answering::Answering;
pub use judging::verdict_on;
pub use run::run_audit;
pub use status::AuditStatus;
pub use verdict::Verdict;
