// How an audit ends.
ghost use Rattle.std.specs.Prelude.{◌≡◌};
ghost use Rattle.audit_run.specs.Ends as model;

use crate::Verdict;
use program::Status;

/// How a run ended that audits.
#[derive(Clone, Copy, PartialEq, Eq, Debug, Drop)]
pub enum AuditStatus {
    /// All is as it is to be.
    Yes,
    /// It isn't.
    No,
    /// A source failed.
    ReadFault,
    /// The outlet of the verdict failed.
    WriteFault,
    /// There was no memory for it.
    NoMemory,
    /// A source has more octets than are taken.
    TooLong,
}

impl AuditStatus {
    /// How a run ends that says this.
    pub(crate) fn of(verdict: Verdict) -> AuditStatus
        ensures { result ≡ model.status_of verdict }
    {
        match verdict {
            Verdict::Yes { .. } => AuditStatus::Yes,
            Verdict::NotACard
            | Verdict::Malformed { .. }
            | Verdict::Differs { .. }
            | Verdict::ImageDiffers => AuditStatus::No,
        }
    }
}

/// A verdict other than yes is a refusal.
impl From<AuditStatus> for Status {
    ghost from_gives = { λ status ending. ending ≡ model.program_status status };

    fn from(status: AuditStatus) -> Status {
        match status {
            AuditStatus::Yes => Status::Done,
            AuditStatus::No => Status::Refused,
            AuditStatus::ReadFault => Status::ReadFault,
            AuditStatus::WriteFault => Status::WriteFault,
            AuditStatus::NoMemory => Status::NoMemory,
            AuditStatus::TooLong => Status::TooLong,
        }
    }
}
