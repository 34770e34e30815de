// Why a file doesn't open.
ghost use Rattle.std.specs.Prelude.{◌≡◌};
ghost use Rattle.file_bench.specs.declared.file_fault.FileFault.TheVariants.{NoFile};

use std::io;
use thiserror::Error;

/// A file that doesn't open.
#[derive(Clone, Copy, PartialEq, Eq, Debug, Error)]
pub enum FileFault {
    /// It isn't there, or can't be opened.
    #[error("no file")]
    NoFile,
    /// It is open for a card already: for another program's, or for this one's by another name.
    #[error("file held")]
    Held,
}

impl From<io::Error> for FileFault {
    ghost from_gives = { λ _ fault. fault ≡ NoFile };

    fn from(_error: io::Error) -> FileFault {
        FileFault::NoFile
    }
}
