//! What a session tells a person beside its output: what stands at a place of a line, what a refusal means, which statements there are.
#![tactic(auto)]

mod cells;
mod dialect;
mod fault;
mod grammar;
mod guide;
mod help;
mod lines;
mod message;
mod note;
mod occasion;
mod reason;
mod refusal;
mod session;
mod size;
mod spot;
mod standing;
mod statements;
#[cfg(test)]
mod tests;
mod token;
mod why;
mod words;

pub use cells::Cells;
pub use dialect::Dialect;
pub use grammar::{Grammar, may_stand};
pub use guide::Guide;
pub use message::Message;
pub use note::note_of;
pub use occasion::Occasion;
pub use refusal::put_word;
pub use statements::Statements;
pub use token::Word;
pub use why::Why;
