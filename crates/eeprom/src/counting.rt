// Counts of faults.
ghost use Rattle.std.specs.Prelude.{◌≤◌};
ghost use Rattle.eeprom.specs.Fault.{Rose};

/// One more, up to the last value of a u64.
pub fn count(faults: &mut u64)
    ensures never_falls { faults.old ≤ faults.new }
    ensures rose { Rose faults.old faults.new }
{
    *faults = faults.saturating_add(1);
}
