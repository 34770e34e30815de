// Standard output as an outlet of answers.
ghost use Rattle.std.specs.Prelude.{◌≡◌, None};

use crate::fault_count::count_fault;
use eeprom::{Outlet, SinkFault};
use std::io;
use std::io::Write;

/// Standard output alone. It doesn't tell what was given.
#[derive(Drop)]
pub struct StdOutlet<R: Print + Drop> {
    rt: R,
    faults: u64,
}

impl<R: Print + Drop> StdOutlet<R> {
    pub fn new(rt: R) -> StdOutlet<R>
        ensures { ⟦<StdOutlet<R> as Outlet>⟧.sink_faults result ≡ 0 }
    {
        StdOutlet { rt, faults: 0 }
    }
}

impl<R: Print + Drop> Outlet for StdOutlet<R> {
    ghost given = { λ _. None };

    ghost sink_faults = { λ outlet. outlet.faults };

    ghost leaves = { λ _ _. Unit {0} };

    fn give(&mut self, octets: &[u8]) -> Result<(), SinkFault> {
        let answer = write_out(&mut io::writer(&self.rt), octets);
        count_fault(&mut self.faults, answer, SinkFault)
    }
}

// Each piece is gone when the call answers.
pub(crate) fn write_out<W: Write>(out: &mut W, octets: &[u8]) -> io::Result<()> {
    out.write_all(octets)?;
    out.flush()
}
