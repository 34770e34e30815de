// Why a line was refused.
use scql_base::StatusWord;
use script::ScriptFault;

/// Why a line was refused.
#[derive(Clone, Copy, PartialEq, Eq, Debug)]
pub enum Refusal {
    /// The card refused it by this word.
    Word { word: StatusWord },
    /// It is no statement.
    Fault { fault: ScriptFault },
    /// It is longer than a line may be.
    TooLong,
}
