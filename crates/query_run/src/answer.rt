// What a query gives.
ghost use Rattle.std.specs.Prelude.{◌≡◌};
ghost use Rattle.query_run.specs.Answers as model;

use eeprom::Heap;
use guide::Why;
use row_join::{Combination, Fetched};
use scql_base::StatusWord;

/// What a query gives.
#[derive(Drop)]
pub(crate) enum Answer {
    /// Combinations of the objects' rows, in their order.
    Rows {
        tables: Vec<Fetched, Heap>,
        combinations: Vec<Combination, Heap>,
    },
    /// More combinations are kept than are printed.
    TooMany,
    /// The card refused an object with this word.
    Refused {
        word: StatusWord,
    },
}

impl Answer {
    /// Whether there are no rows, so that the line is told as refused.
    pub(crate) fn is_refusal(&self) -> bool
        ensures { result ≡ model.is_refusal self.now }
    {
        match self {
            Answer::Rows { .. } => false,
            Answer::TooMany | Answer::Refused { .. } => true,
        }
    }

    /// Why there are no rows, where there are none.
    pub(crate) fn why(&self) -> Option<Why> {
        match self {
            Answer::Rows { .. } => None,
            Answer::TooMany => Some(Why::TooMany),
            Answer::Refused { word } => Some(Why::Word { word: *word }),
        }
    }
}
