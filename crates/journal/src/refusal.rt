// Why a journal wasn't replayed.
ghost use Rattle.std.specs.Prelude.{◌≡◌};
ghost use Rattle.journal.specs.declared.refusal.ReplayRefusal.TheVariants.{Fault};

use eeprom::EepromFault;

#[derive(Clone, Copy, PartialEq, Eq, Debug)]
pub enum ReplayRefusal {
    /// The gate is open, and the journal behind it is out of range.
    BadJournal,
    /// The EEPROM didn't read or write.
    Fault,
}

impl From<EepromFault> for ReplayRefusal {
    ghost from_gives = { λ _ refusal. refusal ≡ Fault };

    fn from(_fault: EepromFault) -> ReplayRefusal {
        ReplayRefusal::Fault
    }
}
