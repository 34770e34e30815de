// How a program ended, and over which of its files.
ghost use Rattle.std.specs.Prelude.{◌≡◌, None, Some};
ghost use Rattle.program.specs.declared.ending.Ending.TheVariants.{Run};
ghost use Rattle.program.specs.declared.status.Status.TheVariants.{NoMemory};
ghost use Rattle.program.specs.Numbers.{ended_as, ended_over};

use crate::{Ending, Status};
use std::alloc::AllocError;

/// How a program ended, and which of its words, counted from 0, names the file that it ended over, where that is known.
#[derive(Clone, Copy, PartialEq, Eq, Debug)]
pub struct ProgramEnd {
    pub ending: Ending,
    pub word: Option<usize>,
}

impl ProgramEnd {
    /// As a run over files ended, or why it didn't begin.
    pub fn of_run(run: Result<Status, ProgramEnd>) -> ProgramEnd
        ensures { result ≡ ended_as run }
    {
        match run {
            Ok(status) => ProgramEnd::from(Ending::Run(status)),
            Err(ended) => ended,
        }
    }

    /// The same of a run over the one file that a word names.
    pub fn of_run_over(word: usize, run: Result<Status, Ending>) -> ProgramEnd
        ensures { result ≡ ended_over word run }
    {
        match run {
            Ok(status) => Ending::Run(status).over(word),
            Err(ending) => ending.over(word),
        }
    }
}

impl Ending {
    /// Over the file that a word names.
    pub fn over(self, word: usize) -> ProgramEnd
        ensures { result ≡ record { ending = self; word = Some word } }
    {
        ProgramEnd {
            ending: self,
            word: Some(word),
        }
    }
}

/// Over none of its files, or it isn't known over which.
impl From<Ending> for ProgramEnd {
    ghost from_gives = { λ ending ended. ended ≡ record { ending = ending; word = None } };

    fn from(ending: Ending) -> ProgramEnd {
        ProgramEnd { ending, word: None }
    }
}

impl From<AllocError> for ProgramEnd {
    ghost from_gives = { λ _ ended. ended ≡ record { ending = Run NoMemory; word = None } };

    fn from(error: AllocError) -> ProgramEnd {
        ProgramEnd::from(Ending::from(error))
    }
}
