//! A terminal: a line is read as a statement and carried out on a card, and what comes of it is printed.
#![tactic(auto)]

mod channels;
mod failure;
mod following;
mod line_end;
mod printing;
mod quiet_end;
mod refusal;
mod terminal;

pub use line_end::LineEnd;
pub use printing::{LONGEST_CLOSING, closing_text, fault_text, give_value};
pub use quiet_end::QuietEnd;
pub use refusal::Refusal;
pub use terminal::Terminal;
