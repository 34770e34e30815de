//! The outside of a card: its EEPROM, the outlet of its answers and the source of its commands, with fakes in memory.
#![tactic(auto)]

mod counting;
mod cut_bench;
mod device;
mod entry;
mod fault;
mod heap;
mod image_bench;
mod input;
mod layout;
mod mem_bench;
mod output;
mod plan;
mod record_octets;
mod recording;
mod reserved;
mod sources;
mod steady_bench;

pub use cut_bench::CutBench;
pub use device::{Bench, Eeprom};
pub use entry::Entry;
pub use fault::{EepromFault, SinkFault, SourceFault};
pub use heap::Heap;
pub use image_bench::ImageBench;
pub use input::Source;
pub use layout::{
    CELL_SIZE, FEWEST_CELLS, GATE_PLACE, HEADER_SIZE, LARGEST_DIRECTORY, LONGEST_CHAIN,
    LONGEST_RECORD, MIGRATED_ROW_LIMIT, MOST_CELLS, NO_CELL, PIECE_SIZE, ROW_LIMIT, cell_place,
    image_size, journal_place,
};
pub use mem_bench::MemBench;
pub use output::Outlet;
pub use plan::FaultPlan;
pub use record_octets::RecordOctets;
pub use recording::write_over;
pub use sources::{MemSource, SteadySource};
pub use steady_bench::SteadyBench;

#[cfg(test)]
mod tests;
