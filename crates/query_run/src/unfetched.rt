// Why the rows of a query's objects aren't all there.
ghost use Rattle.std.specs.Prelude.{◌≡◌};
ghost use Rattle.query_run.specs.declared.unfetched.Unfetched.TheVariants.{NoMemory};

use scql_base::StatusWord;
use std::alloc::AllocError;

/// Why the rows of a query's objects aren't all there.
#[derive(Drop, Clone, Copy, PartialEq, Eq, Debug)]
pub enum Unfetched {
    /// The card refused an object with this word.
    Refused { word: StatusWord },
    /// The card failed: it answers no more.
    Mute,
    /// There was no memory for a row.
    NoMemory,
}

impl From<AllocError> for Unfetched {
    ghost from_gives = { λ _ unfetched. unfetched ≡ NoMemory };

    fn from(_error: AllocError) -> Unfetched {
        Unfetched::NoMemory
    }
}
