//! A copy between two readers of a rack: what a program that copies a table from one card to another calls.
#![tactic(auto)]

mod copy_status;
mod lending;
mod names;
mod presenting;
mod run;
mod text;
mod uncalled;

pub use copy_status::CopyStatus;
pub use names::are_names;
pub use run::run_copy;
pub use uncalled::copy_shown;
