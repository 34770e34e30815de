// Why a store wasn't made or opened, and why a record wasn't put into it.
ghost use Rattle.std.specs.Prelude.{◌≡◌};
ghost use Rattle.record_store.specs.declared.refusal.FormatRefusal.TheVariants.{Fault};
ghost use Rattle.record_store.specs.declared.refusal.OpenRefusal.TheVariants.{NoMemory, NotACard, Fault as OpenFault};
ghost use Rattle.cell_store.specs.declared.refusal.ClaimRefusal.TheVariants.{BadChain, Fault as ClaimFault};
ghost use Rattle.journal.specs.declared.refusal.ReplayRefusal.TheVariants.{BadJournal, Fault as ReplayFault};
ghost use Rattle.record_store.specs.declared.refusal.StoreRefusal.TheVariants.{Fault as StoreFault};

use cell_store::ClaimRefusal;
use eeprom::EepromFault;
use journal::ReplayRefusal;
use std::alloc::{AllocError, AllocFailed};

#[derive(Clone, Copy, PartialEq, Eq, Debug)]
pub enum FormatRefusal {
    /// The EEPROM has too few octets for the cells.
    TooSmall,
    /// The EEPROM didn't read or write.
    Fault,
}

impl From<EepromFault> for FormatRefusal {
    ghost from_gives = { λ _ refusal. refusal ≡ Fault };

    fn from(_fault: EepromFault) -> FormatRefusal {
        FormatRefusal::Fault
    }
}

#[derive(Clone, Copy, PartialEq, Eq, Debug)]
pub enum OpenRefusal {
    /// There is no memory for what is kept.
    NoMemory,
    /// The image isn't one of a card: it has no store, or opens to no database.
    NotACard,
    /// The EEPROM didn't read.
    Fault,
}

impl From<EepromFault> for OpenRefusal {
    ghost from_gives = { λ _ refusal. refusal ≡ OpenFault };

    fn from(_fault: EepromFault) -> OpenRefusal {
        OpenRefusal::Fault
    }
}

impl From<ClaimRefusal> for OpenRefusal {
    ghost from_gives = { λ claim refusal. (claim ≡ BadChain → refusal ≡ NotACard) × (claim ≡ ClaimFault → refusal ≡ OpenFault) };

    fn from(refusal: ClaimRefusal) -> OpenRefusal {
        match refusal {
            ClaimRefusal::BadChain => OpenRefusal::NotACard,
            ClaimRefusal::Fault => OpenRefusal::Fault,
        }
    }
}

impl From<ReplayRefusal> for OpenRefusal {
    ghost from_gives = { λ replay refusal. (replay ≡ BadJournal → refusal ≡ NotACard) × (replay ≡ ReplayFault → refusal ≡ OpenFault) };

    fn from(refusal: ReplayRefusal) -> OpenRefusal {
        match refusal {
            ReplayRefusal::BadJournal => OpenRefusal::NotACard,
            ReplayRefusal::Fault => OpenRefusal::Fault,
        }
    }
}

impl From<AllocError> for OpenRefusal {
    ghost from_gives = { λ _ refusal. refusal ≡ NoMemory };

    fn from(_error: AllocError) -> OpenRefusal {
        OpenRefusal::NoMemory
    }
}

impl<T: Drop> From<AllocFailed<T>> for OpenRefusal {
    ghost from_gives = { λ _ refusal. refusal ≡ NoMemory };

    fn from(_failed: AllocFailed<T>) -> OpenRefusal {
        OpenRefusal::NoMemory
    }
}

#[derive(Clone, Copy, PartialEq, Eq, Debug)]
pub enum StoreRefusal {
    /// The records would have more cells than the store has.
    Full,
    /// The EEPROM didn't write.
    Fault,
}

impl From<EepromFault> for StoreRefusal {
    ghost from_gives = { λ _ refusal. refusal ≡ StoreFault };

    fn from(_fault: EepromFault) -> StoreRefusal {
        StoreRefusal::Fault
    }
}
