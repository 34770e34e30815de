//! An EEPROM in memory with a log of its writes and the text that was given meanwhile, for a host that asks by lines and keeps the lasting image.
#![tactic(auto)]

mod line_bench;

pub use line_bench::LineBench;
