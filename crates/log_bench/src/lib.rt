//! An EEPROM in memory with a log of its writes, for a host that keeps the lasting image and makes the same writes there.
#![tactic(auto)]

mod log;
mod log_bench;

pub use log_bench::LogBench;

#[cfg(test)]
mod tests;
