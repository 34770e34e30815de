// How a run over a rack ends.
ghost use Rattle.std.specs.Prelude.{◌≡◌};
ghost use Rattle.rack_run.specs.Status.{program_status, status_at};

use crate::tally::Tally;
use eeprom::SinkFault;
use line_input::InputEnd;
use program::Status;

/// How a run over a rack ended.
#[derive(Clone, Copy, PartialEq, Eq, Debug)]
pub enum RackStatus {
    /// None of the others.
    Done,
    /// Some line was refused.
    Refused,
    /// Some card went mute.
    Mute,
    /// The source of the lines failed.
    ReadFault,
    /// The outlet of the answers failed.
    WriteFault,
    /// The input is longer than a run takes.
    TooLong,
}

impl RackStatus {
    /// The end of a run whose lines came to this end, and ended so.
    pub(crate) fn of_input(end: InputEnd<SinkFault>, tally: Tally) -> RackStatus
        ensures { result ≡ status_at end tally }
    {
        match end {
            InputEnd::Ended if tally.muted => RackStatus::Mute,
            InputEnd::Ended if tally.refused => RackStatus::Refused,
            InputEnd::Ended => RackStatus::Done,
            InputEnd::ReadFault => RackStatus::ReadFault,
            InputEnd::TooLong => RackStatus::TooLong,
            InputEnd::Stopped(_) => RackStatus::WriteFault,
        }
    }
}

/// A program over a rack ends as the run does: a card that went mute is an EEPROM that failed.
impl From<RackStatus> for Status {
    ghost from_gives = { λ status ended. ended ≡ program_status status };

    fn from(status: RackStatus) -> Status {
        match status {
            RackStatus::Done => Status::Done,
            RackStatus::Refused => Status::Refused,
            RackStatus::Mute => Status::Eeprom,
            RackStatus::ReadFault => Status::ReadFault,
            RackStatus::WriteFault => Status::WriteFault,
            RackStatus::TooLong => Status::TooLong,
        }
    }
}
