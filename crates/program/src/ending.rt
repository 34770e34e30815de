// How a program ends: as a run does, or because there is no file to run over.
ghost use Rattle.std.specs.Prelude.{◌≡◌, ◌↔◌, ◌≤◌, IsSome, option_map};
ghost use Rattle.std.specs.IoError.{error_kind};
ghost use Rattle.std.specs.declared.io.ErrorKind.TheVariants.{OutOfMemory};
ghost use Rattle.program.specs.Numbers.{ending_of, exit_status_of, is_of_file, said_at};
ghost use Rattle.program.specs.declared.status.Status.TheVariants.{NoMemory, Usage};
ghost use Rattle.program.specs.declared.ending.Ending.TheVariants.{Run};

use crate::Status;
use file_bench::FileFault;
use std::alloc::AllocError;
use std::io;

#[derive(Clone, Copy, PartialEq, Eq, Debug)]
pub enum Ending {
    /// As a run ends.
    Run(Status),
    /// A file couldn't be opened.
    NoFile,
    /// A file is open for a card already.
    Held,
}

impl Ending {
    /// The exit status.
    pub fn number(self) -> u8
        ensures { result ≡ exit_status_of self }
    {
        match self {
            Ending::Run(status) => status.number(),
            Ending::NoFile | Ending::Held => 10,
        }
    }

    /// The line on standard error, where there is one.
    pub fn message(self, usage: &'static str) -> Option<&'static str>
        ensures text { option_map (λ text. text.now) result ≡ said_at self usage.now }
        ensures told { IsSome result ↔ 2 ≤ exit_status_of self }
    {
        match self {
            Ending::Run(status) => status.message(usage),
            Ending::NoFile => Some("no file"),
            Ending::Held => Some("file held"),
        }
    }

    /// Whether that is said of one of the program's files.
    pub fn is_of_file(self) -> bool
        ensures { result ≡ is_of_file self }
    {
        matches!(
            self,
            Ending::Run(Status::Eeprom | Status::NotACard | Status::TooSmall)
                | Ending::NoFile
                | Ending::Held
        )
    }
}

impl From<FileFault> for Ending {
    ghost from_gives = { λ fault ending. ending ≡ ending_of fault };

    fn from(fault: FileFault) -> Ending {
        match fault {
            FileFault::NoFile => Ending::NoFile,
            FileFault::Held => Ending::Held,
        }
    }
}

impl From<AllocError> for Ending {
    ghost from_gives = { λ _ ending. ending ≡ Run NoMemory };

    fn from(_error: AllocError) -> Ending {
        Ending::Run(Status::NoMemory)
    }
}

/// Of the words of the command line: there is no memory for them, or one isn't UTF-8.
impl From<io::Error> for Ending {
    ghost from_gives = { λ error ending. (error_kind error ≡ OutOfMemory → ending ≡ Run NoMemory) × (¬ error_kind error ≡ OutOfMemory → ending ≡ Run Usage) };

    fn from(error: io::Error) -> Ending {
        match error.kind() {
            io::ErrorKind::OutOfMemory => Ending::Run(Status::NoMemory),
            _ => Ending::Run(Status::Usage),
        }
    }
}
