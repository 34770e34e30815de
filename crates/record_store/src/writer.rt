// Octets that are written one behind another, in few and large writes, behind the first four of an image.
ghost use Rattle.std.specs.Prelude.{◌≡◌, ◌+◌, ◌<◌, [], ◌∷◌, length, replicate, OnOk};
ghost use Rattle.record_store.specs.Appends.{AppendsUpTo, Flushes, MayWrite, end_of};

use arrayvec::ArrayVec;
use eeprom::{Eeprom, EepromFault};

/// How many octets at most wait to be written together.
const PIECE: usize = 4096;

#[derive(Drop)]
pub struct Writer {
    /// Where the pending octets go.
    pub at: usize,
    pub pending: ArrayVec<u8, PIECE>,
}

impl Writer {
    pub fn new(at: usize) -> Writer
        ensures place { result.at ≡ at }
        ensures empty { result.pending.items ≡ [] }
    {
        Writer {
            at,
            pending: ArrayVec::new(),
        }
    }

    /// Writes what is pending.
    pub fn flush<B: Eeprom>(&mut self, bench: &mut B) -> Result<(), EepromFault>
        requires ready { MayWrite self.old (end_of self.old) (B.chip bench.old) }
        ensures { Flushes B.chip B.faults self.old self.new bench.old bench.new result }
    {
        bench.write(self.at, self.pending.as_slice())?;
        self.at += self.pending.len();
        self.pending.clear();
        Ok(())
    }

    fn make_room<B: Eeprom>(&mut self, bench: &mut B) -> Result<(), EepromFault>
        requires ready { MayWrite self.old (end_of self.old) (B.chip bench.old) }
        ensures free { OnOk result (length self.new.pending.items < PIECE) }
        ensures appends { AppendsUpTo B.chip B.faults [] (end_of self.old) self.old self.new bench.old bench.new result }
    {
        if self.pending.is_full() {
            self.flush(bench)?;
        }
        Ok(())
    }

    fn push<B: Eeprom>(&mut self, bench: &mut B, octet: u8) -> Result<(), EepromFault>
        requires ready { MayWrite self.old (end_of self.old + 1) (B.chip bench.old) }
        ensures { AppendsUpTo B.chip B.faults (octet ∷ []) (end_of self.old + 1) self.old self.new bench.old bench.new result }
    {
        self.make_room(bench)?;
        self.pending.push(octet);
        Ok(())
    }

    /// Appends these octets.
    pub fn append<B: Eeprom>(&mut self, bench: &mut B, octets: &[u8]) -> Result<(), EepromFault>
        requires ready { MayWrite self.old (end_of self.old + length octets.now) (B.chip bench.old) }
        ensures { AppendsUpTo B.chip B.faults octets.now (end_of self.old + length octets.now) self.old self.new bench.old bench.new result }
    {
        for octet in octets {
            self.push(bench, *octet)?;
        }
        Ok(())
    }

    /// Appends so many times this octet.
    pub fn fill<B: Eeprom>(
        &mut self,
        bench: &mut B,
        octet: u8,
        count: usize,
    ) -> Result<(), EepromFault>
        requires ready { MayWrite self.old (end_of self.old + count) (B.chip bench.old) }
        ensures { AppendsUpTo B.chip B.faults (replicate count octet) (end_of self.old + count) self.old self.new bench.old bench.new result }
    {
        for _step in 0..count {
            self.push(bench, octet)?;
        }
        Ok(())
    }
}
