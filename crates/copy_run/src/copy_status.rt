// How a copy ended for the program.
ghost use Rattle.std.specs.Prelude.{◌≡◌};
ghost use Rattle.copy_run.specs.Copies as model;

use program::Status;
use table_copy::CopyEnd;

/// How a run ended that copies a table.
#[derive(Clone, Copy, PartialEq, Eq, Debug)]
pub enum CopyStatus {
    /// The rows were copied.
    Done,
    /// A card refused something.
    Refused,
    /// The words aren't four names.
    Usage,
    /// A card is mute.
    Mute,
    /// The outlet of the line failed.
    WriteFault,
}

impl CopyStatus {
    /// How a copy that ended so is reported.
    pub(crate) fn of(end: CopyEnd) -> CopyStatus
        ensures { result ≡ model.status_of end }
    {
        match end {
            CopyEnd::Copied { .. } => CopyStatus::Done,
            CopyEnd::SourceRefused { .. } | CopyEnd::DestRefused { .. } => CopyStatus::Refused,
            CopyEnd::SourceMute | CopyEnd::DestMute => CopyStatus::Mute,
        }
    }
}

/// A card that is mute is an EEPROM that failed.
impl From<CopyStatus> for Status {
    ghost from_gives = { λ status ending. ending ≡ model.program_status status };

    fn from(status: CopyStatus) -> Status {
        match status {
            CopyStatus::Done => Status::Done,
            CopyStatus::Refused => Status::Refused,
            CopyStatus::Usage => Status::Usage,
            CopyStatus::Mute => Status::Eeprom,
            CopyStatus::WriteFault => Status::WriteFault,
        }
    }
}
