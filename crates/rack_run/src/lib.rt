//! A run over a rack of readers: each line of the input is carried out as soon as it came in whole, and a person is shown which reader is current.
#![tactic(auto)]

mod answering;
mod line_rack;
mod prompt;
mod rack_lines;
mod run;
mod status;
mod tally;
mod why;

pub use run::run_rack;
pub use status::RackStatus;
