// How a run over cards ends.
ghost use Rattle.std.specs.Prelude.{◌≡◌, ◌↔◌, ◌≤◌, IsSome, option_map};
ghost use Rattle.program.specs.Numbers.{number_of, said_of, status_at, status_of};

use line_input::InputEnd;
use line_run::LineStop;

/// How a run ended. The program's exit status is its number.
#[derive(Clone, Copy, PartialEq, Eq, Debug)]
pub enum Status {
    /// None of the others.
    Done,
    /// Some line was refused.
    Refused,
    /// The words are none of the forms.
    Usage,
    /// The EEPROM failed.
    Eeprom,
    /// The source of the lines failed.
    ReadFault,
    /// The outlet of the answers failed.
    WriteFault,
    /// The image is no card.
    NotACard,
    /// There was no memory for the run.
    NoMemory,
    /// The input is longer than a run takes.
    TooLong,
    /// The image has no room for so many cells.
    TooSmall,
}

impl Status {
    /// The end of a run whose lines came to this end, in which one was refused or none.
    pub fn of_input(end: InputEnd<LineStop>, refused: bool) -> Status
        ensures { result ≡ status_at end refused }
    {
        match end {
            InputEnd::Ended if refused => Status::Refused,
            InputEnd::Ended => Status::Done,
            InputEnd::ReadFault => Status::ReadFault,
            InputEnd::TooLong => Status::TooLong,
            InputEnd::Stopped(stop) => Status::of_stop(stop),
        }
    }

    // The end of a run that stopped in a line.
    fn of_stop(stop: LineStop) -> Status
        ensures { result ≡ status_of stop }
    {
        match stop {
            LineStop::Eeprom => Status::Eeprom,
            LineStop::Outlet | LineStop::Both => Status::WriteFault,
            LineStop::NoMemory => Status::NoMemory,
        }
    }

    /// The exit status.
    pub fn number(self) -> u8
        ensures { result ≡ number_of self }
    {
        match self {
            Status::Done => 0,
            Status::Refused => 1,
            Status::Usage => 2,
            Status::Eeprom => 3,
            Status::ReadFault => 4,
            Status::WriteFault => 5,
            Status::NotACard => 6,
            Status::NoMemory => 7,
            Status::TooLong => 8,
            Status::TooSmall => 9,
        }
    }

    /// What is said of the run on standard error, which is nothing where all lines were heard. Of words that are none of its forms a program tells its usage.
    pub fn message(self, usage: &'static str) -> Option<&'static str>
        ensures text { option_map (λ text. text.now) result ≡ said_of self usage.now }
        ensures told { IsSome result ↔ 2 ≤ number_of self }
    {
        match self {
            Status::Done | Status::Refused => None,
            Status::Usage => Some(usage),
            Status::Eeprom => Some("eeprom fault"),
            Status::ReadFault => Some("read fault"),
            Status::WriteFault => Some("write fault"),
            Status::NotACard => Some("not a card"),
            Status::NoMemory => Some("no memory"),
            Status::TooLong => Some("input too long"),
            Status::TooSmall => Some("image too small"),
        }
    }
}
