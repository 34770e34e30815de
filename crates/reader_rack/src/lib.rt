//! A rack of up to four readers, each with a card and a terminal of its own: a line goes to the current reader, and all others stay.
#![tactic(auto)]

mod boxed;
mod desk;
mod laws;
mod number;
mod rack;
mod rack_end;
mod rack_refusal;
mod reader;
mod statement;

pub use boxed::BoxedLink;
pub use laws::own_lines_are_a_terminals;
pub use rack::Rack;
pub use rack_end::RackEnd;
pub use rack_refusal::RackRefusal;
pub use statement::{RackStatement, rack_statement};

#[cfg(test)]
mod tests;
