// The count of a device's faults.
ghost use Rattle.std.specs.Prelude.{◌≡◌, Ok, IfOk};
ghost use Rattle.eeprom.specs.Fault.{Counts};

use std::io;

/// Counts what a device answered, and gives the device's own fault in place of the system's error.
/// At the last value of a u64 the count stands still.
pub fn count_fault<T, E: Drop>(faults: &mut u64, answer: io::Result<T>, fault: E) -> Result<T, E>
    ensures counts { Counts faults.old faults.new result }
    ensures value { IfOk result (λ value. answer ≡ Ok value) }
{
    match answer {
        Ok(value) => Ok(value),
        Err(_) => {
            *faults = faults.saturating_add(1);
            Err(fault)
        }
    }
}
