// An EEPROM in memory, with standard output as the outlet of the card's answers.
ghost use Rattle.std.specs.Prelude.{◌≡◌, Some, None, length, replicate, refl};
ghost use Rattle.std.proofs.Common.{rules};
ghost use Rattle.ram_card.specs.RamChip.{ram_chip};
ghost use Rattle.ram_card.specs.declared.ram.TheConstants.{RAM_SIZE};

use eeprom::{Bench, Eeprom, EepromFault, Outlet, SinkFault};
use file_bench::StdOutlet;

/// The octets of the EEPROM: as many as a card of 64 cells takes.
pub const RAM_SIZE: usize = 4514;

/// Memory and standard output. It tells its image, and nothing of moments: at a loss of power all of it is gone. Nor does it tell what was given.
#[derive(Drop)]
pub struct RamBench<R: Print + Drop> {
    image: [u8; RAM_SIZE],
    outlet: StdOutlet<R>,
    ghost whole: { length image ≡ RAM_SIZE },
}

impl<R: Print + Drop> RamBench<R> {
    /// An EEPROM that nothing was written to.
    pub fn new(rt: R) -> RamBench<R>
        ensures image { (⟦<RamBench<R> as Eeprom>⟧.chip result).image ≡ Some (replicate RAM_SIZE 255) }
        ensures sink_faults { ⟦<RamBench<R> as Outlet>⟧.sink_faults result ≡ 0 }
    {
        RamBench {
            image: [0xFF; RAM_SIZE],
            outlet: StdOutlet::new(rt),
        }
    }
}

impl<R: Print + Drop> Eeprom for RamBench<R> {
    ghost chip = { λ bench. ram_chip bench.image (⟦<StdOutlet<R> as Outlet>⟧.sink_faults bench.outlet) };

    ghost octets_read = { λ _. None };

    ghost faults = { λ _. 0 };

    // Owes the number of octets, the same at each call.
    fn size(&self) -> usize {
        RAM_SIZE
    }

    // Owes the octets that stand from `at` on. Nothing is changed, whatever is answered; no call fails, so none is counted.
    fn read(&mut self, at: usize, into: &mut [u8]) -> Result<(), EepromFault> {
        into.copy_from_slice(&self.image[at..at + into.len()]);
        Ok(())
    }

    // Owes that the octets stand there to stay when it answers, and that all others are as they were.
    fn write(&mut self, at: usize, from: &[u8]) -> Result<(), EepromFault> {
        self.image[at..at + from.len()].copy_from_slice(from);
        Ok(())
    }

    ghost small = { λ _. Prim.search rules };

    ghost clocked = { λ _. tt };

    ghost sized = { λ bench. bench.whole };
}

impl<R: Print + Drop> Outlet for RamBench<R> {
    ghost given = { λ _. None };

    ghost sink_faults = { λ bench. ⟦<StdOutlet<R> as Outlet>⟧.sink_faults bench.outlet };

    ghost leaves = { λ old new. new.image ≡ old.image };

    // Owes that the octets are out when it answers, or a start of them where it fails, which is counted. The EEPROM stays.
    fn give(&mut self, octets: &[u8]) -> Result<(), SinkFault> {
        self.outlet.give(octets)
    }
}

impl<R: Print + Drop> Bench for RamBench<R> {
    ghost output = { λ _. (refl, refl) };

    ghost mark = { λ _. tt };

    ghost gives = { λ _ _ kept. (Prim.search rules, refl, refl) };
}
