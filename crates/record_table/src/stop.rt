// Why an operation on a database stopped.
ghost use Rattle.std.specs.Prelude.{◌≡◌, Err};
ghost use Rattle.record_store.specs.declared.refusal.StoreRefusal.TheVariants.{Full, Fault as StoreFault};
ghost use Rattle.scql_base.specs.Words.{no_space};
ghost use Rattle.record_table.specs.Making.{stop_answer};
ghost use Rattle.record_table.specs.declared.stop.Stop.TheVariants.{Refused, Fault};

use eeprom::EepromFault;
use record_store::StoreRefusal;
use scql_base::StatusWord;

/// Why the database wasn't changed.
#[derive(Clone, Copy, PartialEq, Eq, Debug)]
pub enum Stop {
    /// The operation is refused: the word of the first refusal that applies.
    Refused { word: StatusWord },
    /// The EEPROM didn't read or write.
    Fault,
}

impl Stop {
    /// What is answered to a command that stopped: the word of the refusal, or the fault.
    pub fn answer(self) -> Result<StatusWord, EepromFault>
        ensures { result ≡ stop_answer self }
    {
        match self {
            Stop::Refused { word } => Ok(word),
            Stop::Fault => Err(EepromFault),
        }
    }
}

impl From<EepromFault> for Stop {
    ghost from_gives = { λ _ stop. stop ≡ Fault };

    fn from(_fault: EepromFault) -> Stop {
        Stop::Fault
    }
}

impl From<StoreRefusal> for Stop {
    ghost from_gives = { λ refusal stop. (refusal ≡ Full → stop ≡ Refused no_space) × (refusal ≡ StoreFault → stop ≡ Fault) };

    fn from(refusal: StoreRefusal) -> Stop {
        match refusal {
            StoreRefusal::Full => Stop::Refused {
                word: StatusWord::NO_SPACE,
            },
            StoreRefusal::Fault => Stop::Fault,
        }
    }
}

/// What an operation answers that this word refuses.
pub fn refused<T>(word: StatusWord) -> Result<T, Stop>
    ensures { result ≡ Err (Refused word) }
{
    Err(Stop::Refused { word })
}
