// A person at a terminal, who types lines.
ghost use Rattle.std.specs.Prelude.{◌≡◌};

use eeprom::{Source, SourceFault};

/// A source of lines. Where a person is there who types them, a prompt is printed before each.
#[derive(Drop)]
pub struct Prompted<S: Source, P: Print + Drop> {
    source: S,
    screen: Option<P>,
}

impl<S: Source, P: Print + Drop> Prompted<S, P> {
    pub fn new(source: S, screen: Option<P>) -> Prompted<S, P>
        ensures left { ⟦<Prompted<S, P> as Source>⟧.left result ≡ S.left source }
        ensures faults { ⟦<Prompted<S, P> as Source>⟧.source_faults result ≡ S.source_faults source }
    {
        Prompted { source, screen }
    }
}

impl<S: Source, P: Print + Drop> Source for Prompted<S, P> {
    ghost left = { λ prompted. S.left prompted.source };

    ghost source_faults = { λ prompted. S.source_faults prompted.source };

    fn read(&mut self, into: &mut [u8]) -> Result<usize, SourceFault> {
        if let Some(screen) = &self.screen {
            // Where the prompt can't be printed, the line is read all the same.
            let _ = screen.print("> ");
        }
        self.source.read(into)
    }
}
