// Where a card's commands come from.
ghost use Rattle.std.specs.Prelude.{ℕ, List, Option, ◌<◌, ◌≡◌, length, OnErr, IfOk};
ghost use Rattle.eeprom.specs.Fault.{Counts};
ghost use Rattle.eeprom.specs.Input.{TakesPiece};

use crate::SourceFault;

pub trait Source {
    /// The octets that are still to come, where told.
    ghost left: { Self → Option (List ℕ) };

    /// How often a call failed.
    ghost source_faults: { Self → ℕ };

    /// Takes the next octets into the front of `into`, and answers how many: at least one, or 0 where nothing is left.
    fn read(&mut self, into: &mut [u8]) -> Result<usize, SourceFault>
        requires { 0 < length into.old }
        ensures taken { IfOk result (λ count. TakesPiece count into.new (left self.old) (left self.new)) }
        ensures err { OnErr result (left self.new ≡ left self.old) }
        ensures cause { Counts (source_faults self.old) (source_faults self.new) result };
}
