// Why a chain wasn't claimed or written.
ghost use Rattle.std.specs.Prelude.{◌≡◌};
ghost use Rattle.cell_store.specs.declared.refusal.ClaimRefusal.TheVariants.{Fault};
ghost use Rattle.cell_store.specs.declared.refusal.CellRefusal.TheVariants.{Fault as WriteFault};

use eeprom::EepromFault;

#[derive(Clone, Copy, PartialEq, Eq, Debug)]
pub enum ClaimRefusal {
    /// There is no chain of a record, or it has a cell that is in use.
    BadChain,
    /// The EEPROM didn't read.
    Fault,
}

impl From<EepromFault> for ClaimRefusal {
    ghost from_gives = { λ _ refusal. refusal ≡ Fault };

    fn from(_fault: EepromFault) -> ClaimRefusal {
        ClaimRefusal::Fault
    }
}

#[derive(Clone, Copy, PartialEq, Eq, Debug)]
pub enum CellRefusal {
    /// Fewer cells are free than the chain needs.
    NoCell,
    /// The EEPROM didn't write.
    Fault,
}

impl From<EepromFault> for CellRefusal {
    ghost from_gives = { λ _ refusal. refusal ≡ WriteFault };

    fn from(_fault: EepromFault) -> CellRefusal {
        CellRefusal::Fault
    }
}
