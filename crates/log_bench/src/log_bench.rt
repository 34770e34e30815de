// An EEPROM in memory with a log of its writes.
ghost use Rattle.std.specs.Prelude.{◌≡◌, length};
ghost use Rattle.log_bench.specs.Log.{writes_in};
ghost use Rattle.log_bench.specs.Writes.{AllFit, AllFit-prop, applied, undone};

use crate::log::Log;
use eeprom::{Eeprom, EepromFault, Heap, write_over};
use std::alloc::AllocError;

/// An image, and a log of the writes since it was begun. It fails only where there is no memory for the log, and then it writes nothing.
/// There is no second image: the one at the log's beginning is told by what the writes replaced.
#[derive(Drop)]
pub struct LogBench {
    image: Vec<u8, Heap>,
    log: Log,
    octets_read: u128,
    octets_written: u128,
    faults: u64,
    ghost fits: { AllFit (length (undone (writes_in log) image.items)) (writes_in log) } by { AllFit-prop (length (undone (writes_in log) image.items)) (writes_in log) },
    ghost replays: { applied (writes_in log) (undone (writes_in log) image.items) ≡ image.items },
}

impl LogBench {
    ghost use Rattle.std.specs.Prelude.{◌≡◌, [], List, ℕ, length, slice_get, option_map, Some, IfOk};
    ghost use Rattle.eeprom.specs.Chip.{LeftSince};
    ghost use Rattle.log_bench.specs.Log.{room_for_writes, room_for_octets};
    ghost use Rattle.log_bench.specs.LogBench.{chip_of, image_of, log_of, first_of, faults_of};
    ghost use Rattle.log_bench.specs.Writes.{MayBeCutTo, applied};

    /// Begins a log with room for so many writes, and for so many octets of them.
    pub fn new(
        alloc: Heap,
        image: Vec<u8, Heap>,
        writes: usize,
        octets: usize,
    ) -> Result<LogBench, AllocError>
        ensures image { IfOk result (λ bench. image_of bench ≡ image.items) }
        ensures none { IfOk result (λ bench. log_of bench ≡ []) }
        ensures room { IfOk result (λ bench. (room_for_writes bench.log ≡ writes) × (room_for_octets bench.log ≡ octets)) }
        ensures faults { IfOk result (λ bench. faults_of bench ≡ 0) }
    {
        Ok(LogBench {
            image,
            log: Log::new(alloc, writes, octets)?,
            octets_read: 0,
            octets_written: 0,
            faults: 0,
        })
    }

    pub fn image(&self) -> &[u8]
        ensures { result.now ≡ image_of self.now }
    {
        &self.image
    }

    /// The image, when the log is let go.
    pub fn into_image(self) -> Vec<u8, Heap>
        ensures { result.items ≡ image_of self }
    {
        let LogBench {
            image,
            log: _,
            octets_read: _,
            octets_written: _,
            faults: _,
        } = self;
        image
    }

    /// How many writes were made since the log was begun.
    pub fn writes(&self) -> usize
        ensures { result ≡ length (log_of self.now) }
    {
        self.log.len()
    }

    /// The write of that number, the first being 0: its place and its octets.
    pub fn write_at(&self, write: usize) -> Option<(usize, &[u8])>
        ensures place { option_map (λ w. w.0) result ≡ option_map (λ w. w.at) (slice_get (log_of self.now) write) }
        ensures octets { option_map (λ w. w.1.now) result ≡ option_map (λ w. w.octets) (slice_get (log_of self.now) write) }
    {
        self.log.get(write)
    }

    /// Begins the log anew. The image stays.
    pub fn begin(&mut self)
        ensures image { image_of self.new ≡ image_of self.old }
        ensures none { log_of self.new ≡ [] }
        ensures faults { faults_of self.new ≡ faults_of self.old }
    {
        self.log.clear();
    }

    /// The law of the log: its writes make the image of that at its beginning, and whoever makes them there, in their order, and is cut off at any
    /// moment leaves an image that a loss of power may leave here since then.
    pub fn law_of_the_log(&self)
        ensures all { applied (log_of self.now) (first_of self.now) ≡ image_of self.now }
        ensures cuts { (left : List ℕ) → MayBeCutTo (log_of self.now) (first_of self.now) left → LeftSince (chip_of self.now) 1 1 left }
    {}
}

impl Eeprom for LogBench {
    ghost use Rattle.std.specs.Prelude.{◌+◌, ◌≤◌, length, refl};
    ghost use Rattle.log_bench.specs.LogBench.{ReadsInMemory, WritesLogged, chip_of, image_of, octets_read_of, faults_of, small_of, clocked_of};

    ghost chip = { chip_of };

    ghost octets_read = { octets_read_of };

    ghost faults = { faults_of };

    fn size(&self) -> usize {
        self.image.len()
    }

    fn read(&mut self, at: usize, into: &mut [u8]) -> Result<(), EepromFault>
        requires { at + length into.old ≤ length (image_of self.old) }
        ensures { ReadsInMemory at into.old into.new self.old self.new result }
    {
        self.octets_read = self.octets_read.saturating_add(into.len() as u128);
        into.copy_from_slice(&self.image[at..at + into.len()]);
        Ok(())
    }

    fn write(&mut self, at: usize, from: &[u8]) -> Result<(), EepromFault>
        requires { at + length from.now ≤ length (image_of self.old) }
        ensures { WritesLogged at from.now self.old self.new result }
    {
        self.octets_written = self.octets_written.saturating_add(from.len() as u128);
        match self.log.add(at, from, &self.image[at..at + from.len()]) {
            Ok(()) => {
                write_over(&mut self.image, at, from);
                Ok(())
            }
            Err(AllocError) => {
                self.faults = self.faults.saturating_add(1);
                Err(EepromFault)
            }
        }
    }

    ghost small = { small_of };

    ghost clocked = { clocked_of };

    ghost sized = { λ b. refl };
}
