//! The real outside: a file as a card's EEPROM, and the standard streams. What they hold no contract says.
#![tactic(auto)]

mod card_file;
mod fault_count;
mod file_bench;
mod file_fault;
mod file_source;
mod standard_input;
mod standard_output;

pub use file_bench::{FILE_SIZE, FileBench};
pub use file_fault::FileFault;
pub use file_source::FileSource;
pub use standard_input::StdSource;
pub use standard_output::StdOutlet;
