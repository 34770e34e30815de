// How a run over queries ends.
ghost use Rattle.std.specs.Prelude.{◌≡◌};
ghost use Rattle.program.specs.Numbers.{status_at};
ghost use Rattle.query_run.specs.Statuses.{program_status};

use line_input::InputEnd;
use line_run::LineStop;
use program::Status;

/// How a run over queries ended.
#[derive(Clone, Copy, PartialEq, Eq, Debug, Drop)]
pub enum QueryStatus {
    /// None of the others.
    Done,
    /// The user or some line was refused.
    Refused,
    /// The EEPROM failed.
    Eeprom,
    /// The source of the lines failed.
    ReadFault,
    /// The outlet of the answers failed.
    WriteFault,
    /// There is no card.
    NotACard,
    /// There was no memory for the card, or for a line.
    NoMemory,
    /// The input is longer than a run takes.
    TooLong,
}

impl QueryStatus {
    /// The end of a run whose lines came to this end, in which one was refused or none.
    pub(crate) fn of_input(end: InputEnd<LineStop>, refused: bool) -> QueryStatus
        ensures { program_status result ≡ status_at end refused }
    {
        match end {
            InputEnd::Ended if refused => QueryStatus::Refused,
            InputEnd::Ended => QueryStatus::Done,
            InputEnd::ReadFault => QueryStatus::ReadFault,
            InputEnd::TooLong => QueryStatus::TooLong,
            InputEnd::Stopped(LineStop::Eeprom) => QueryStatus::Eeprom,
            InputEnd::Stopped(LineStop::Outlet | LineStop::Both) => QueryStatus::WriteFault,
            InputEnd::Stopped(LineStop::NoMemory) => QueryStatus::NoMemory,
        }
    }
}

/// A program over queries ends as the run does.
impl From<QueryStatus> for Status {
    ghost from_gives = { λ status ended. ended ≡ program_status status };

    fn from(status: QueryStatus) -> Status {
        match status {
            QueryStatus::Done => Status::Done,
            QueryStatus::Refused => Status::Refused,
            QueryStatus::Eeprom => Status::Eeprom,
            QueryStatus::ReadFault => Status::ReadFault,
            QueryStatus::WriteFault => Status::WriteFault,
            QueryStatus::NotACard => Status::NotACard,
            QueryStatus::NoMemory => Status::NoMemory,
            QueryStatus::TooLong => Status::TooLong,
        }
    }
}
