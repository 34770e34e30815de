// A bench in memory that tells everything, and fails where it is told to, or where its record finds no room.
use crate::counting::count;
use crate::plan::Calls;
use crate::recording::Recording;
use crate::{Bench, Eeprom, EepromFault, FaultPlan, Outlet, SinkFault};
use std::alloc::{AllocError, Global};

#[derive(Drop)]
pub struct MemBench {
    alloc: Global,
    recording: Recording,
    reads: Calls,
    writes: Calls,
    gives: Calls,
    fill: u8,
    octets_read: u128,
    octets_written: u128,
    faults: u64,
    sink_faults: u64,
    lacks: u64,
}

impl MemBench {
    ghost use Rattle.std.specs.Prelude.{◌≡◌, ◌-◌, ◌^◌, min, nat_lt, length, slice_get, option_map, Some, IfSome, IfOk};
    ghost use Rattle.eeprom.specs.Told.{writes_of, filled};
    ghost use Rattle.eeprom.specs.MemBench.{IsNew, chip_of, told_of, lacks_of};

    pub fn new(alloc: Global, image: Vec<u8>, plan: FaultPlan) -> Result<MemBench, AllocError>
        ensures { IfOk result (λ bench. IsNew image.items plan bench) }
    {
        Ok(MemBench {
            alloc,
            recording: Recording::new(alloc, image)?,
            reads: Calls::new(plan.reads),
            writes: Calls::new(plan.writes),
            gives: Calls::new(plan.gives),
            fill: plan.fill,
            octets_read: 0,
            octets_written: 0,
            faults: 0,
            sink_faults: 0,
            lacks: 0,
        })
    }

    pub fn image(&self) -> &[u8]
        ensures { result.now ≡ (told_of self.now).image }
    {
        self.recording.image()
    }

    pub fn given(&self) -> &[u8]
        ensures { Some result.now ≡ (chip_of self.now).still.given }
    {
        self.recording.output()
    }

    /// How many writes were recorded, the failed ones among them.
    pub fn writes(&self) -> usize
        ensures { IfSome (chip_of self.now).past (λ past. result ≡ length (writes_of past)) }
    {
        self.recording.writes()
    }

    /// How many octets of output had gone out at that write, the first being 0; none where there is no such write.
    pub fn given_at(&self, write: usize) -> Option<usize>
        ensures { IfSome (chip_of self.now).past (λ past. result ≡ option_map (λ w. w.mark) (slice_get (writes_of past) write)) }
    {
        self.recording.mark_at(write)
    }

    /// The image at that write with `fill` in the write's whole range; none where there is no such write.
    pub fn image_within(
        &self,
        alloc: Global,
        write: usize,
        fill: u8,
    ) -> Result<Option<Vec<u8>>, AllocError>
        ensures { IfOk result (λ found. IfSome (chip_of self.now).past (λ past. option_map (λ v. v.items) found ≡ option_map (filled fill) (slice_get (writes_of past) write))) }
    {
        self.recording.image_within(alloc, write, fill)
    }

    /// How many octets were asked for by all reads, or the greatest usize where that is more.
    pub fn octets_read(&self) -> usize
        ensures { IfSome (⟦<MemBench as Eeprom>⟧.octets_read self.now) (λ count. result ≡ min count (2 ^ 64 - 1)) }
    {
        self.octets_read.min(usize::MAX as u128) as usize
    }

    /// Whether some write or give found no room for its record. Until then exactly the planned ones fail.
    pub fn ran_out(&self) -> bool
        ensures { result ≡ nat_lt 0 (lacks_of self.now) }
    {
        self.lacks > 0
    }
}

impl Eeprom for MemBench {
    ghost use Rattle.std.specs.Prelude.{◌≤◌, ◌+◌, length, refl};
    ghost use Rattle.eeprom.specs.MemBench.{ReadsAsPlanned, WritesAsPlanned, chip_of, told_of, octets_read_of, faults_of, small_of, clocked_of};

    ghost chip = { chip_of };

    ghost octets_read = { octets_read_of };

    ghost faults = { faults_of };

    fn size(&self) -> usize {
        self.image().len()
    }

    fn read(&mut self, at: usize, into: &mut [u8]) -> Result<(), EepromFault>
        requires { at + length into.old ≤ length (told_of self.old).image }
        ensures { ReadsAsPlanned at into.old into.new self.old self.new result }
    {
        self.octets_read = self.octets_read.saturating_add(into.len() as u128);
        if self.reads.next_fails() {
            count(&mut self.faults);
            return Err(EepromFault);
        }
        into.copy_from_slice(&self.recording.image()[at..at + into.len()]);
        Ok(())
    }

    fn write(&mut self, at: usize, from: &[u8]) -> Result<(), EepromFault>
        requires { at + length from.now ≤ length (told_of self.old).image }
        ensures { WritesAsPlanned at from.now self.old self.new result }
    {
        self.octets_written = self.octets_written.saturating_add(from.len() as u128);
        if self.writes.next_fails() {
            count(&mut self.faults);
            if self
                .recording
                .fill(self.alloc, at, from.len(), self.fill)
                .is_err()
            {
                count(&mut self.lacks);
            }
            return Err(EepromFault);
        }
        if self.recording.write(self.alloc, at, from).is_err() {
            count(&mut self.lacks);
            count(&mut self.faults);
            return Err(EepromFault);
        }
        Ok(())
    }

    ghost small = { small_of };

    ghost clocked = { clocked_of };

    ghost sized = { λ b. refl };
}

impl Outlet for MemBench {
    ghost use Rattle.eeprom.specs.MemBench.{GivesAsPlanned, chip_of, sink_faults_of, Leaves};

    ghost given = { λ bench. (chip_of bench).still.given };

    ghost sink_faults = { sink_faults_of };

    ghost leaves = { Leaves };

    fn give(&mut self, octets: &[u8]) -> Result<(), SinkFault>
        ensures { GivesAsPlanned octets.now self.old self.new result }
    {
        if self.gives.next_fails() {
            count(&mut self.sink_faults);
            if self.recording.give(&octets[..octets.len() / 2]).is_err() {
                count(&mut self.lacks);
            }
            return Err(SinkFault);
        }
        if self.recording.give(octets).is_err() {
            count(&mut self.lacks);
            count(&mut self.sink_faults);
            return Err(SinkFault);
        }
        Ok(())
    }
}

impl Bench for MemBench {
    ghost use Rattle.std.specs.Prelude.{refl};

    ghost output = { λ b. (refl, refl) };

    ghost mark = { λ b. refl };

    ghost gives = { λ old new left. left };
}
