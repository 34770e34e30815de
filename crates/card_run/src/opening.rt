// The card of a run: made, or found there, and opened.
ghost use Rattle.std.specs.Prelude.{◌≤◌, ℕ, OnOk, IfOk, IfErr, IsErrOf};
ghost use Rattle.eeprom.specs.Fault.{Rose};
ghost use Rattle.card_run.specs.Opening.{IsOpened, IsPrepared, IsUnopened, LeavesBench};
ghost use Rattle.card_run.specs.Words.{IsWithinLimits};
ghost use Rattle.program.specs.Ends.{AllFaults, EndsBy};

use crate::words::Form;
use card::{Card, FormatRefusal, OpenRefusal};
use eeprom::{Bench, Heap};
use program::Status;

/// Opens the card that the words ask for. Nothing is given, and no line is read.
#[inline(never)]
pub(crate) fn open_card<B: Bench>(alloc: Heap, form: Form, bench: &mut B) -> Result<Card, Status>
    requires { IsWithinLimits form }
    ensures opened { IfOk result (λ card. IsOpened form (B.chip bench.old) (B.chip bench.new) card) }
    ensures unopened { IfErr result (λ status. IsUnopened B.chip B.octets_read form bench.old bench.new status) }
    ensures leaves { LeavesBench B.chip B.faults form Status.TooSmall bench.old bench.new result }
    ensures ends { (source : ℕ) → IfErr result (λ status. EndsBy status
        (record { eeprom = B.faults bench.old; source = source; outlet = B.sink_faults bench.old })
        (record { eeprom = B.faults bench.new; source = source; outlet = B.sink_faults bench.new })) }
{
    match prepare(form, bench) {
        Err(FormatRefusal::TooSmall) => return Err(Status::TooSmall),
        Err(FormatRefusal::Fault) => return Err(Status::Eeprom),
        Ok(()) => {}
    }
    match Card::open(alloc, bench) {
        Err(OpenRefusal::NoMemory) => Err(Status::NoMemory),
        Err(OpenRefusal::NotACard) => Err(Status::NotACard),
        Err(OpenRefusal::Fault) => Err(Status::Eeprom),
        Ok(card) => Ok(card),
    }
}

// Makes the card that the words ask for, where it isn't to be there already. It isn't inlined, so that its places are gone once the card is opened.
#[inline(never)]
fn prepare<B: Bench>(form: Form, bench: &mut B) -> Result<(), FormatRefusal>
    requires { IsWithinLimits form }
    ensures prepared { OnOk result (IsPrepared B.chip form bench.old bench.new) }
    ensures leaves { LeavesBench B.chip B.faults form FormatRefusal.TooSmall bench.old bench.new result }
    ensures fault { IsErrOf result FormatRefusal.Fault → Rose (B.faults bench.old) (B.faults bench.new) }
    ensures never_falls { B.faults bench.old ≤ B.faults bench.new }
{
    match form {
        Form::New { cells } => Card::format(bench, cells),
        Form::Apdu | Form::Term | Form::Check | Form::Migrate | Form::Load { .. } => { Ok(()) }
    }
}
