// Why a line wasn't carried out.
use scql_base::StatusWord;
use script::ScriptFault;

/// Why a line wasn't carried out.
#[derive(Clone, Copy, PartialEq, Eq, Debug)]
pub enum Why {
    /// The card refused it by this word.
    Word { word: StatusWord },
    /// It is in no grammar.
    Fault { fault: ScriptFault },
    /// It is longer than a line may be.
    TooLong,
    /// The reader that it is for has no card that answers.
    NoCard,
    /// More rows would be printed than a run prints.
    TooMany,
}
