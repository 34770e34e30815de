// An EEPROM in memory with a log of its writes, and the text that was given since the log was begun.
ghost use Rattle.std.specs.Prelude.{◌≡◌, ◌+◌, ◌≤◌, length};
ghost use Rattle.log_bench.specs.LogBench.{log_of};
ghost use Rattle.line_bench.specs.Spans.{IsInTurn, IsInTurn-prop};

use eeprom::{Eeprom, EepromFault, Heap, Outlet, SinkFault};
use log_bench::LogBench;
use std::alloc::AllocError;

/// An image, a log of the writes since it was begun, and a text. Of each write it is kept how much of the text had been given, so that the moments of
/// both are told together. It fails only where there is no memory, and then it writes or gives nothing.
#[derive(Drop)]
pub struct LineBench {
    log: LogBench,
    text: Vec<u8, Heap>,
    // for each write of the log how many octets of the text stood before it
    marks: Vec<usize, Heap>,
    faults: u64,
    text_faults: u64,
    ghost paired: { length marks.items ≡ length (log_of log) },
    ghost in_turn: { IsInTurn 0 marks.items (length text.items) } by { IsInTurn-prop 0 marks.items (length text.items) },
}

impl LineBench {
    ghost use Rattle.std.specs.Prelude.{◌≡◌, ◌+◌, ◌≤◌, length, slice_get, option_map, vec_capacity, IfOk};
    ghost use Rattle.line_bench.specs.LineBench.{IsBegun, IsNew, KeepsFaults, WritesOrWants, image_of, room_for_text, size_of, text_of, writes_of};

    /// Begins a log with room for so many writes, and for so many octets of them. There is no text, nor room for one.
    pub fn new(
        alloc: Heap,
        image: Vec<u8, Heap>,
        writes: usize,
        octets: usize,
    ) -> Result<LineBench, AllocError>
        ensures { IfOk result (λ bench. IsNew image.items writes octets bench) }
    {
        Ok(LineBench {
            log: LogBench::new(alloc, image, writes, octets)?,
            text: Vec::with_capacity(alloc, 0)?,
            marks: Vec::with_capacity(alloc, writes)?,
            faults: 0,
            text_faults: 0,
        })
    }

    pub fn image(&self) -> &[u8]
        ensures { result.now ≡ image_of self.now }
    {
        self.log.image()
    }

    /// What was given since the log was begun.
    pub fn text(&self) -> &[u8]
        ensures { result.now ≡ text_of self.now }
    {
        &self.text
    }

    /// How many writes were made since the log was begun.
    pub fn writes(&self) -> usize
        ensures { result ≡ length (writes_of self.now) }
    {
        self.log.writes()
    }

    /// The write of that number, the first being 0: its place and its octets.
    pub fn write_at(&self, write: usize) -> Option<(usize, &[u8])>
        ensures place { option_map (λ w. w.0) result ≡ option_map (λ w. w.at) (slice_get (writes_of self.now) write) }
        ensures octets { option_map (λ w. w.1.now) result ≡ option_map (λ w. w.octets) (slice_get (writes_of self.now) write) }
    {
        self.log.write_at(write)
    }

    /// Begins log and text anew. The image stays.
    pub fn begin(&mut self)
        ensures { IsBegun (room_for_text self.old + length (text_of self.old)) self.old self.new }
    {
        self.log.begin();
        self.marks.clear();
        self.text.clear();
    }

    /// The same, with this room for the text.
    pub fn begin_in(&mut self, room: Vec<u8, Heap>)
        ensures { IsBegun (vec_capacity room) self.old self.new }
    {
        let mut text = room;
        text.clear();
        self.log.begin();
        self.marks.clear();
        self.text = text;
    }

    // Writes, where there is memory for the log.
    fn enter(&mut self, at: usize, from: &[u8]) -> Result<(), EepromFault>
        requires { at + length from.now ≤ size_of self.old }
        ensures entered { WritesOrWants at from.now self.old self.new result }
        ensures faults { KeepsFaults self.old self.new }
    {
        if self.marks.reserve(1).is_err() {
            return Err(EepromFault);
        }
        self.log.write(at, from)?;
        self.marks.push_reserved(self.text.len());
        Ok(())
    }
}

impl Eeprom for LineBench {
    ghost use Rattle.std.specs.Prelude.{◌+◌, ◌≤◌, length, refl};
    ghost use Rattle.line_bench.specs.LineBench.{EntersWrite, ReadsImage, chip_of, faults_of, octets_read_of, size_of, small_of};

    ghost chip = { chip_of };

    ghost octets_read = { octets_read_of };

    ghost faults = { faults_of };

    fn size(&self) -> usize {
        self.log.image().len()
    }

    fn read(&mut self, at: usize, into: &mut [u8]) -> Result<(), EepromFault>
        requires { at + length into.old ≤ size_of self.old }
        ensures { ReadsImage at into.old into.new self.old self.new result }
    {
        into.copy_from_slice(&self.log.image()[at..at + into.len()]);
        Ok(())
    }

    fn write(&mut self, at: usize, from: &[u8]) -> Result<(), EepromFault>
        requires { at + length from.now ≤ size_of self.old }
        ensures { EntersWrite at from.now self.old self.new result }
    {
        match self.enter(at, from) {
            Ok(()) => Ok(()),
            Err(EepromFault) => {
                self.faults = self.faults.saturating_add(1);
                Err(EepromFault)
            }
        }
    }

    ghost small = { small_of };

    ghost clocked = { λ bench. refl };

    ghost sized = { λ bench. refl };
}

impl Outlet for LineBench {
    ghost use Rattle.line_bench.specs.LineBench.{GivesText, LeavesLog, given_of, text_faults_of};

    ghost given = { given_of };

    ghost sink_faults = { text_faults_of };

    ghost leaves = { LeavesLog };

    fn give(&mut self, octets: &[u8]) -> Result<(), SinkFault>
        ensures { GivesText octets.now self.old self.new result }
    {
        if self.text.extend_from_slice(octets).is_ok() {
            return Ok(());
        }
        self.text_faults = self.text_faults.saturating_add(1);
        Err(SinkFault)
    }
}
