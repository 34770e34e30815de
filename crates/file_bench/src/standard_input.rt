// Standard input as the source of a card's commands.
ghost use Rattle.std.specs.Prelude.{◌≡◌, None};

use crate::fault_count::count_fault;
use eeprom::{Source, SourceFault};
use std::io::{Read, Stdin};

/// Standard input, from which nothing is read ahead. It doesn't tell what is still to come.
#[derive(Drop)]
pub struct StdSource {
    input: Stdin,
    faults: u64,
}

impl StdSource {
    pub fn new(rt: HostRuntime) -> StdSource
        ensures { ⟦<StdSource as Source>⟧.source_faults result ≡ 0 }
    {
        StdSource {
            input: rt.stdin(),
            faults: 0,
        }
    }
}

impl Source for StdSource {
    ghost left = { λ _. None };

    ghost source_faults = { λ source. source.faults };

    fn read(&mut self, into: &mut [u8]) -> Result<usize, SourceFault> {
        let answer = self.input.read(into);
        count_fault(&mut self.faults, answer, SourceFault)
    }
}
