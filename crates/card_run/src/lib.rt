//! A run of the card by the words of a command line: what a program that puts a card behind them calls, and the laws on such runs.
#![tactic(auto)]

mod checking;
mod commands;
pub mod laws;
mod load_lines;
mod loading;
mod migration;
mod opening;
mod output;
mod progress;
mod run;
mod statements;
mod words;

pub use run::run_card;

#[cfg(test)]
mod tests;
