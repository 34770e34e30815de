// A bench whose EEPROM is cut off after so many writes, for tests of what is left then.
ghost use Rattle.std.specs.Prelude.{◌≡◌, ◌+◌, ◌≤◌, length};
ghost use Rattle.eeprom.specs.CutBench.{FillsOver};

use crate::counting::count;
use crate::{Eeprom, EepromFault};

/// Passes all reads and a number of writes on to another EEPROM. The next write fills its range there
/// with one octet and fails, and so does every later call.
#[derive(Drop)]
pub struct CutBench<B: Eeprom + Drop> {
    inner: B,
    left: u16,
    fill: u8,
    cut: bool,
    refusals: u64,
}

impl<B: Eeprom + Drop> CutBench<B> {
    ghost use Rattle.std.specs.Prelude.{◌≡◌, false, IsErr};
    ghost use Rattle.eeprom.specs.Fault.{Counts};
    ghost use Rattle.eeprom.specs.CutBench.{inner_of, cut_of, faults_of, with_writes_left};

    /// It passes on `left` writes. The one behind them leaves `fill` in its range.
    pub fn new(inner: B, left: u16, fill: u8) -> CutBench<B>
        ensures inner { inner_of result ≡ inner }
        ensures cut { cut_of result ≡ with_writes_left left fill }
        ensures size { (⟦<CutBench<B> as Eeprom>⟧.chip result).still ≡ (B.chip inner).still }
        ensures faults { ⟦<CutBench<B> as Eeprom>⟧.faults result ≡ B.faults inner }
    {
        CutBench {
            inner,
            left,
            fill,
            cut: false,
            refusals: 0,
        }
    }

    /// The EEPROM that the calls are passed on to.
    pub fn inner(&self) -> &B
        ensures { result.now ≡ inner_of self.now }
    {
        &self.inner
    }

    // Fails without a call of the inner EEPROM.
    fn refuse(&mut self) -> Result<(), EepromFault>
        ensures refused { IsErr result }
        ensures inner { inner_of self.new ≡ inner_of self.old }
        ensures cut { cut_of self.new ≡ cut_of self.old }
        ensures cause { Counts (faults_of B.faults self.old) (faults_of B.faults self.new) result }
    {
        count(&mut self.refusals);
        Err(EepromFault)
    }
}

impl<B: Eeprom + Drop> Eeprom for CutBench<B> {
    ghost use Rattle.std.specs.Prelude.{◌≤◌, ◌+◌, length, None};
    ghost use Rattle.eeprom.specs.CutBench.{PassesRead, PassesWrite, inner_of, faults_of, untold};

    ghost chip = { λ bench. untold (B.chip (inner_of bench)) };

    ghost octets_read = { λ _. None };

    ghost faults = { faults_of B.faults };

    fn size(&self) -> usize {
        self.inner.size()
    }

    fn read(&mut self, at: usize, into: &mut [u8]) -> Result<(), EepromFault>
        requires { at + length into.old ≤ (B.chip (inner_of self.old)).still.size }
        ensures { PassesRead B.chip B.faults at into.old into.new self.old self.new result }
    {
        if self.cut {
            return self.refuse();
        }
        self.inner.read(at, into)
    }

    fn write(&mut self, at: usize, from: &[u8]) -> Result<(), EepromFault>
        requires { at + length from.now ≤ (B.chip (inner_of self.old)).still.size }
        ensures { PassesWrite B.chip B.faults at from.now self.old self.new result }
    {
        if self.cut {
            return self.refuse();
        }
        if self.left > 0 {
            self.left -= 1;
            return self.inner.write(at, from);
        }
        self.cut = true;
        fill_over(&mut self.inner, at, from.len(), self.fill);
        self.refuse()
    }

    ghost small = { λ b. B.small (inner_of b) };

    ghost clocked = { λ _. tt };

    ghost sized = { λ _. tt };
}

const PIECE: usize = 32;

// Fills a range with one octet, piece by piece, whatever the EEPROM answers.
fn fill_over<B: Eeprom>(bench: &mut B, at: usize, count: usize, fill: u8)
    requires { at + count ≤ (B.chip bench.old).still.size }
    ensures { FillsOver B.chip B.faults bench.old bench.new }
{
    let piece = [fill; PIECE];
    let mut done = 0;
    while done < count {
        let length = (count - done).min(PIECE);
        let _ = bench.write(at + done, &piece[..length]);
        done += length;
    }
}
