//! A run over the lines of an input, in any language of lines: each line is answered as soon as it came in whole, and where the run stops there is
//! one extent that says what was said, what was kept and what a power loss leaves.
#![tactic(auto)]

mod line_stop;
mod responder;
mod run;

pub use line_stop::LineStop;
pub use responder::Responder;
pub use run::run_lines;
