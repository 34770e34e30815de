// What ends a run before its input does.
ghost use Rattle.std.specs.Prelude.{◌≡◌};
ghost use Rattle.line_run.specs.declared.line_stop.LineStop.TheVariants.{Outlet};

use eeprom::SinkFault;

/// Why a responder stopped in a line.
#[derive(Drop, Clone, Copy, PartialEq, Eq, Debug)]
pub enum LineStop {
    /// The EEPROM failed.
    Eeprom,
    /// The outlet failed, in the text of a line that was carried out.
    Outlet,
    /// The EEPROM failed, and then the outlet as that was said.
    Both,
    /// There was no memory for the line, of which nothing was said.
    NoMemory,
}

impl From<SinkFault> for LineStop {
    ghost from_gives = { λ _ stop. stop ≡ Outlet };

    fn from(_fault: SinkFault) -> LineStop {
        LineStop::Outlet
    }
}
