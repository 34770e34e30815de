// The run of a check: what the card that is there holds, in one line.
ghost use Rattle.std.specs.Prelude.{◌≡◌, ℕ, List};
ghost use Rattle.scql_model.specs.Machine.{Machine};
ghost use Rattle.card.specs.Behind.{KeepsBehind};
ghost use Rattle.card.specs.Card.{IsReady, IsAt};
ghost use Rattle.card.specs.Counting as model;
ghost use Rattle.card_run.specs.Checking.{Says};
ghost use Rattle.line_run.specs.Causes.{Faults};
ghost use Rattle.card_run.specs.Ends.{EndsOpened};
ghost use Rattle.card_run.specs.Migrating.{WritesNothing};

use crate::output::give;
use crate::words::Form;
use arrayvec::ArrayVec;
use card::{Card, Counts};
use eeprom::Bench;
use person::put_count;
use program::Status;

/// The longest line: its words, and six numbers of at most ten digits.
const LONGEST_TEXT: usize = 101;

/// Says how many records of each kind the card has, and how many cells they take.
#[inline(never)]
pub(crate) fn run_check<B: Bench>(card: &Card, bench: &mut B) -> Status
    requires { IsReady card.now (B.chip bench.old) }
    ensures says { (m : Machine) → IsAt card.now (B.chip bench.old) m → Says result m.committed (B.faults bench.old) (B.faults bench.new) (B.chip bench.old).still.given (B.chip bench.new).still.given }
    ensures nothing { WritesNothing (B.chip bench.old) (B.chip bench.new) }
    ensures ended { EndsOpened Form.Check result (record { eeprom = B.faults bench.old; outlet = B.sink_faults bench.old }) (record { eeprom = B.faults bench.new; outlet = B.sink_faults bench.new }) }
    ensures behind { (cells : List ℕ → ℕ) → KeepsBehind cells (B.chip bench.old) (B.chip bench.new) }
{
    let Ok(counts) = card.counts(bench) else {
        return Status::Eeprom;
    };
    match give(bench, &text_of(&counts)) {
        Ok(()) => Status::Done,
        Err(_) => Status::WriteFault,
    }
}

fn text_of(counts: &Counts) -> ArrayVec<u8, LONGEST_TEXT>
    ensures { result.items ≡ model.counts_text counts.now }
{
    let mut text = ArrayVec::new();
    put_count(&mut text, b"users ", counts.users as u32);
    put_count(&mut text, b" objects ", counts.objects as u32);
    put_count(&mut text, b" grants ", counts.grants as u32);
    put_count(&mut text, b" rows ", counts.rows as u32);
    put_count(&mut text, b" cells ", counts.weight as u32);
    put_count(&mut text, b" of ", counts.cells as u32);
    text.push(b'\n');
    text
}
