// What goes out.
ghost use Rattle.card_run.specs.Giving.{GivesOut};

use eeprom::{Bench, SinkFault};

// Giving, as the EEPROM of the bench tells it: each of its moments has how much had gone out.
pub(crate) fn give<B: Bench>(bench: &mut B, text: &[u8]) -> Result<(), SinkFault>
    ensures { GivesOut B.chip B.faults B.sink_faults text.now bench.old bench.new result }
{
    bench.give(text)
}
