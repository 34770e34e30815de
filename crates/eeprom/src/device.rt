// The EEPROM of a card, and the bench that has one together with the outlet of the card's answers.
ghost use Rattle.std.specs.Prelude.{◌≡◌, ◌<◌, ◌≤◌, ◌+◌, ◌^◌, ℕ, Option, length, IfSome};
ghost use Rattle.eeprom.specs.Chip.{Chip, Gives};
ghost use Rattle.eeprom.specs.Octets.{ReadsOctets, WritesOctets};

use crate::{EepromFault, Outlet};

/// A memory of octets that keeps them without power. Places and lengths are in octets.
pub trait Eeprom {
    /// What it has become: the image, the octets written, the moments so far, and what stays.
    ghost chip: { Self → Chip };

    /// How many octets were asked for by all reads, where told.
    ghost octets_read: { Self → Option ℕ };

    /// How often a call failed.
    ghost faults: { Self → ℕ };

    /// The number of octets of the image, which never changes.
    fn size(&self) -> usize
        ensures { result ≡ (chip self.now).still.size };

    /// Reads the octets from `at` on. The image stays, whatever is answered.
    fn read(&mut self, at: usize, into: &mut [u8]) -> Result<(), EepromFault>
        requires { at + length into.old ≤ (chip self.old).still.size }
        ensures { ReadsOctets chip octets_read faults at into.old into.new self.old self.new result };

    /// Writes octets from `at` on. Where it fails, or where power is lost meanwhile, the range may hold anything.
    fn write(&mut self, at: usize, from: &[u8]) -> Result<(), EepromFault>
        requires { at + length from.now ≤ (chip self.old).still.size }
        ensures { WritesOctets chip octets_read faults at from.now self.old self.new result };

    /// The size fits a usize.
    ghost small: { (b : Self) → (chip b).still.size < 2 ^ 64 };

    /// The clock is the number of stretches, where told.
    ghost clocked: { (b : Self) → IfSome (chip b).past (λ past. length past ≡ (chip b).clock) };

    /// The size is that of the image, where told.
    ghost sized: { (b : Self) → IfSome (chip b).image (λ image. length image ≡ (chip b).still.size) };
}

/// A card's EEPROM and the outlet of its answers in one object, so that each moment has its mark:
/// the number of octets of output that had gone out.
pub trait Bench: Eeprom + Outlet {
    /// The EEPROM's output is the outlet's.
    ghost output: { (b : Self) → ((Self.chip b).still.given ≡ Self.given b) × ((Self.chip b).still.sink_faults ≡ Self.sink_faults b) };

    /// The mark is the length of what was given, where told.
    ghost mark: { (b : Self) → IfSome (Self.given b) (λ given. (Self.chip b).still.mark ≡ length given) };

    /// Giving raises the mark, and leaves the image and the EEPROM's counts.
    ghost gives: { (old new : Self) → Self.leaves old new → Gives (Self.chip old) (Self.chip new)
        × (Self.faults new ≡ Self.faults old) × (Self.octets_read new ≡ Self.octets_read old) };
}
