// Neighbouring numbers behind the header, which are written together: those of slots, and those of the journal behind them.
ghost use Rattle.std.specs.Prelude.{◌≡◌, ◌⊎◌, ◌+◌, ◌*◌, ◌≤◌, ℕ, List, [], ◌++◌, length, OnOk};
ghost use Rattle.eeprom.specs.Calls.{WritesOnly};
ghost use Rattle.eeprom.specs.Chip.{RisesBy};
ghost use Rattle.eeprom.specs.StoreOf.{two_octets};
ghost use Rattle.eeprom.specs.declared.entry.Entry.{Entry};
ghost use Rattle.journal.specs.declared.run.TheConstants.{LARGEST_RUN};
ghost use Rattle.journal.specs.Redo.{IsRun};
ghost use Rattle.journal.specs.Run.{SameOutside, end_of, place_of, promised};

use crate::octets::ENTRY_SIZE;
use arrayvec::ArrayVec;
use eeprom::{Eeprom, EepromFault, HEADER_SIZE};
use std::marker::Model;

/// How many octets are written together at most.
const LARGEST_RUN: usize = 512;

/// A run of numbers.
#[derive(Drop)]
pub struct Run {
    /// Where the first of them stands: that of the first slot is at 0.
    index: u16,
    octets: ArrayVec<u8, LARGEST_RUN>,
}

impl Model for Run {
    ghost use Rattle.journal.specs.Run.{Numbers};

    ghost Value = { Numbers };

    ghost view = { λ run. record { index = run.index; octets = run.octets.items } };
}

impl Run {
    /// A run without numbers, which is to begin there.
    pub fn new(index: u16) -> Run
        ensures index { result.index ≡ index }
        ensures empty { result.octets ≡ [] }
    {
        Run {
            index,
            octets: ArrayVec::new(),
        }
    }

    /// Writes the numbers, where there are any.
    pub fn write<B: Eeprom>(&self, bench: &mut B) -> Result<(), EepromFault>
        requires room { end_of self.now ≤ (B.chip bench.old).still.size }
        ensures { WritesOnly B.chip B.faults B.octets_read (λ was now. now ≡ promised self.now was) (SameOutside (place_of self.now) (end_of self.now)) (RisesBy (length self.now.octets)) bench.old bench.new result }
    {
        if self.octets.is_empty() {
            return Ok(());
        }
        let place = HEADER_SIZE + 2 * self.index as usize;
        bench.write(place, self.octets.as_slice())
    }

    /// Goes where the next number stands, and makes room for an entry: nothing is done where both are so already, and else the numbers
    /// are written and a new run begins.
    pub fn go_to<B: Eeprom>(&mut self, bench: &mut B, index: u16) -> Result<(), EepromFault>
        requires room { end_of self.old ≤ (B.chip bench.old).still.size }
        ensures next { OnOk result (length self.new.octets + 2 * self.new.index ≡ 2 * index) }
        ensures free { OnOk result (length self.new.octets + 4 ≤ LARGEST_RUN) }
        ensures begins { OnOk result ((self.new.index ≡ self.old.index) ⊎ (self.new.index ≡ index)) }
        ensures run { OnOk result ((n : ℕ) (entries : List Entry) → index ≤ n → IsRun n entries self.old → IsRun n entries self.new) }
        ensures rewrites { WritesOnly B.chip B.faults B.octets_read (λ was now. promised self.new now ≡ promised self.old was) (SameOutside (place_of self.old) (end_of self.old))
            (λ before after. after + length self.new.octets ≡ before + length self.old.octets) bench.old bench.new result }
    {
        let size = self.octets.len();
        let is_next = 2 * self.index as usize + size == 2 * index as usize;
        if is_next && size + ENTRY_SIZE <= LARGEST_RUN {
            return Ok(());
        }
        self.write(bench)?;
        self.index = index;
        self.octets.clear();
        Ok(())
    }

    /// Makes this the next number.
    pub fn push(&mut self, number: u16)
        requires free { length self.old.octets + 2 ≤ LARGEST_RUN }
        ensures pushed { self.new.octets ≡ self.old.octets ++ two_octets number }
        ensures index { self.new.index ≡ self.old.index }
    {
        let [high, low] = number.to_be_bytes();
        self.octets.push(high);
        self.octets.push(low);
    }
}
