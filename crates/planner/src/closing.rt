// How a statement ends.
use scql_base::StatusWord;

/// How a statement ends, as its closing line says.
#[derive(Clone, Copy, PartialEq, Eq, Debug)]
pub enum Closing {
    /// There is no closing line.
    Nothing,
    /// It was done.
    Fine,
    /// So many rows were given or changed.
    Rows { number: u32 },
    /// So many rows were given, and then came something that is no row, or that didn't end.
    Cut { number: u32 },
    /// The card refused it with this word.
    Refused { word: StatusWord },
}
