// A bench in memory that never fails. It takes all its memory beforehand, and tells what there was room for.
ghost use Rattle.std.specs.Prelude.{◌≡◌, ◌+◌, ◌≤◌, length, vec_capacity};
ghost use Rattle.eeprom.specs.Steps.{replacing};

use crate::recording::write_over;
use crate::reserved::Reserved;
use crate::{Bench, Eeprom, EepromFault, Outlet, SinkFault};
use std::alloc::{AllocError, Global};

/// What was done: a write, or a piece of output that raised the mark.
#[derive(Drop)]
pub enum Step {
    Write {
        at: usize,
        count: usize,
        mark: usize,
    },
    Give {
        from: usize,
        to: usize,
    },
}

/// The record keeps what each write replaced, so that the image before it can be told from the image now.
/// A step takes up room of the writes or of the output, and so the room for steps is that of both together;
/// an empty piece is no step, since it takes up none.
#[derive(Drop)]
pub struct SteadyBench {
    image: Vec<u8>,
    output: Reserved,
    replaced: Reserved,
    steps: Vec<Step>,
    octets_read: u128,
    octets_written: u128,
    ghost room: { length steps.items + (replaced.left + output.left) ≤ vec_capacity steps },
    ghost whole: { replacing steps.items ≡ length replaced.octets.items },
}

impl SteadyBench {
    ghost use Rattle.std.specs.Prelude.{◌≡◌, ◌+◌, ◌-◌, ◌<◌, ◌≤◌, ◌++◌, ◌∷◌, [], length, slice_range, true, nat_le, if◌then◌else◌, Some, IfSome, IfOk};
    ghost use Rattle.eeprom.specs.Told.{untouched, chip_from};
    ghost use Rattle.eeprom.specs.declared.steady_bench.Step.TheVariants.{Write};
    ghost use Rattle.eeprom.specs.SteadyBench.{chip_of, room_for_writes, room_for_output};

    /// Takes room for so many octets of writes, and of output. No later call takes memory.
    pub fn new(
        alloc: Global,
        image: Vec<u8>,
        writes: usize,
        output: usize,
    ) -> Result<SteadyBench, AllocError>
        ensures chip { IfOk result (λ bench. chip_of bench ≡ chip_from (untouched image.items) 0 0) }
        ensures read { IfOk result (λ bench. ⟦<SteadyBench as Eeprom>⟧.octets_read bench ≡ Some 0) }
        ensures faults { IfOk result (λ bench. (⟦<SteadyBench as Eeprom>⟧.faults bench ≡ 0) × (⟦<SteadyBench as Outlet>⟧.sink_faults bench ≡ 0)) }
        ensures room { IfOk result (λ bench. (room_for_writes bench ≡ writes) × (room_for_output bench ≡ output)) }
    {
        let steps = writes.checked_add(output).ok_or(AllocError)?;
        Ok(SteadyBench {
            image,
            output: Reserved::new(alloc, output)?,
            replaced: Reserved::new(alloc, writes)?,
            steps: Vec::with_capacity(alloc, steps)?,
            octets_read: 0,
            octets_written: 0,
        })
    }

    pub fn image(&self) -> &[u8]
        ensures { Some result.now ≡ (chip_of self.now).image }
    {
        &self.image
    }

    /// What was given, until a piece found no room.
    pub fn given(&self) -> &[u8]
        ensures { IfSome (chip_of self.now).still.given (λ given. result.now ≡ given) }
    {
        self.output.octets()
    }

    // Keeps the octets that a write is about to replace, where there is room for them.
    fn keep(&mut self, at: usize, count: usize)
        requires some { 0 < count }
        requires within { at + count ≤ length self.old.image.items }
        ensures image { self.new.image ≡ self.old.image }
        ensures output { self.new.output ≡ self.old.output }
        ensures counts { (self.new.octets_read ≡ self.old.octets_read) × (self.new.octets_written ≡ self.old.octets_written) }
        ensures replaced { self.new.replaced.octets.items ≡ (if nat_le count self.old.replaced.left then self.old.replaced.octets.items ++ slice_range self.old.image.items at (at + count) else self.old.replaced.octets.items) }
        ensures steps { self.new.steps.items ≡ (if nat_le count self.old.replaced.left then self.old.steps.items ++ Write at count (length self.old.output.octets.items) ∷ [] else self.old.steps.items) }
        ensures overrun { self.new.replaced.overrun ≡ (if nat_le count self.old.replaced.left then self.old.replaced.overrun else true) }
        ensures left { self.new.replaced.left ≡ self.old.replaced.left - count }
    {
        let mark = self.output.octets().len();
        if self.replaced.add(&self.image[at..at + count]) {
            self.steps.push_reserved(Step::Write { at, count, mark });
        }
    }
}

impl Eeprom for SteadyBench {
    ghost use Rattle.std.specs.Prelude.{◌≤◌, ◌+◌, length, refl};
    ghost use Rattle.eeprom.specs.SteadyBench.{ReadsSteadily, WritesSteadily, chip_of, octets_read_of, small_of, clocked_of};

    ghost chip = { chip_of };

    ghost octets_read = { octets_read_of };

    ghost faults = { λ bench. 0 };

    fn size(&self) -> usize {
        self.image.len()
    }

    fn read(&mut self, at: usize, into: &mut [u8]) -> Result<(), EepromFault>
        requires { at + length into.old ≤ length self.old.image.items }
        ensures { ReadsSteadily at into.old into.new self.old self.new result }
    {
        self.octets_read = self.octets_read.saturating_add(into.len() as u128);
        into.copy_from_slice(&self.image[at..at + into.len()]);
        Ok(())
    }

    fn write(&mut self, at: usize, from: &[u8]) -> Result<(), EepromFault>
        requires { at + length from.now ≤ length self.old.image.items }
        ensures { WritesSteadily at from.now self.old self.new result }
    {
        if from.is_empty() {
            return Ok(());
        }
        self.octets_written = self.octets_written.saturating_add(from.len() as u128);
        self.keep(at, from.len());
        write_over(&mut self.image, at, from);
        Ok(())
    }

    ghost small = { small_of };

    ghost clocked = { clocked_of };

    ghost sized = { λ b. refl };
}

impl Outlet for SteadyBench {
    ghost use Rattle.eeprom.specs.SteadyBench.{GivesSteadily, Leaves, given_of};

    ghost given = { given_of };

    ghost sink_faults = { λ bench. 0 };

    ghost leaves = { Leaves };

    fn give(&mut self, octets: &[u8]) -> Result<(), SinkFault>
        ensures { GivesSteadily octets.now self.old self.new result }
    {
        if octets.is_empty() {
            return Ok(());
        }
        let from = self.output.octets().len();
        if self.output.add(octets) {
            self.steps.push_reserved(Step::Give {
                from,
                to: self.output.octets().len(),
            });
        }
        Ok(())
    }
}

impl Bench for SteadyBench {
    ghost use Rattle.std.specs.Prelude.{refl};
    ghost use Rattle.eeprom.specs.SteadyBench.{mark_of};

    ghost output = { λ b. (refl, refl) };

    ghost mark = { mark_of };

    ghost gives = { λ old new left. (left.0, refl, left.1) };
}
