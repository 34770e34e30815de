// How the lines of a run ended so far.
ghost use Rattle.std.specs.Prelude.{◌≡◌, ◌↔◌, OnOk, OnErr, IsErr};
ghost use Rattle.rack_run.specs.Status.{nothing_yet, with_end};

use eeprom::SinkFault;
use reader_rack::RackEnd;

/// Whether a line was refused, and whether a card went mute in one.
#[derive(Clone, Copy, PartialEq, Eq, Debug)]
pub(crate) struct Tally {
    pub(crate) refused: bool,
    pub(crate) muted: bool,
}

impl Tally {
    /// Before the first line.
    pub(crate) fn new() -> Tally
        ensures { result ≡ nothing_yet }
    {
        Tally {
            refused: false,
            muted: false,
        }
    }

    /// Another line ended so. A run goes on behind it, unless the outlet failed.
    pub(crate) fn add(&mut self, end: RackEnd) -> Result<(), SinkFault>
        ensures added { self.new ≡ with_end end self.old }
        ensures stops { IsErr result ↔ (end ≡ RackEnd.SinkFault) }
    {
        match end {
            RackEnd::Answered => {}
            RackEnd::Refused { .. } => self.refused = true,
            RackEnd::Mute => self.muted = true,
            RackEnd::SinkFault => return Err(SinkFault),
        }
        Ok(())
    }
}
