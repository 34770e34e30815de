//! The statements that a terminal reads: each line is held against their grammar.
#![tactic(auto)]

mod fault;
pub mod laws;
mod lists;
mod literal;
mod parsed;
mod reading;
mod rules;
mod size;
mod statement;
mod token;
mod tokens;
mod values;
mod words;

pub use fault::ScriptFault;
pub use reading::is_nothing;
pub use statement::Statement;
pub use tokens::Tokens;
