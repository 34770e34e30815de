//! The table machine on plain lists, on neither store nor card. It takes memory only when it is made.
#![tactic(auto)]

mod channel;
mod engine;
mod machine;
mod same;
mod session;
mod sessions;

pub use machine::PlainMachine;
