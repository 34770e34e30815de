//! What programs have alike: the words of the command line, what a program says of itself, the standard streams, and how it ends.
#![tactic(auto)]

mod about;
mod ending;
mod program_end;
mod running;
mod status;
mod streams;
mod words;

pub use about::About;
pub use ending::Ending;
pub use program_end::ProgramEnd;
pub use running::run_program;
pub use status::Status;
pub use streams::hold_streams;
