// How a cursor moves.
ghost use Rattle.std.specs.Prelude.{◌≡◌};
ghost use Rattle.db_read.specs.Motion.{asks_opened};

use scql_base::Place;

/// How a cursor moves over its rows, and whether the row that it reaches is handed out.
#[derive(Clone, Copy)]
pub enum Motion {
    /// OPEN: to the first row, or to the end where there is none.
    Open,
    /// NEXT: to the next row, or to the end where there is none.
    Next,
    /// FETCH: the row at the cursor's place is handed out, where Le allows it.
    Fetch { le: u16 },
    /// FETCH NEXT: the next row is handed out, where Le allows it, and the cursor goes there; where there is none it goes to the end.
    FetchNext { le: u16 },
}

impl Motion {
    /// Whether a cursor moves so from a place: one that wasn't opened can only be opened.
    pub(crate) fn goes_from(self, place: Place) -> bool
        ensures { result ≡ asks_opened self place }
    {
        match self {
            Motion::Open => true,
            Motion::Next | Motion::Fetch { .. } | Motion::FetchNext { .. } => {
                !matches!(place, Place::NotOpen)
            }
        }
    }
}
