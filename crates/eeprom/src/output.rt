// Where a card's answers go.
ghost use Rattle.std.specs.Prelude.{ℕ, List, Option, length, OnOk, OnErr};
ghost use Rattle.eeprom.specs.Fault.{Counts};
ghost use Rattle.eeprom.specs.Output.{Follows};

use crate::SinkFault;

pub trait Outlet {
    /// All octets that were given, where told.
    ghost given: { Self → Option (List ℕ) };

    /// How often a call failed.
    ghost sink_faults: { Self → ℕ };

    /// What a call leaves of the rest of the object.
    ghost leaves: { Self → Self → Type 0 };

    /// Gives a piece of output. Where it fails a prefix of the piece has gone out.
    fn give(&mut self, octets: &[u8]) -> Result<(), SinkFault>
        ensures ok { OnOk result (Follows (length octets.now) octets.now (given self.old) (given self.new)) }
        ensures err { OnErr result ((count : ℕ) × Follows count octets.now (given self.old) (given self.new)) }
        ensures rest { leaves self.old self.new }
        ensures cause { Counts (sink_faults self.old) (sink_faults self.new) result };
}
