// A statement of the terminal.
use scql_base::{Changes, Conditions, Name, NameList, Operation};

/// What a line asks for. An empty list of columns means all columns of an object.
#[derive(Drop)]
pub enum Statement {
    /// A line without tokens, or a note.
    Blank,
    /// One operation of the card, as one command.
    Single {
        operation: Operation,
    },
    Select {
        object: Name,
        columns: NameList,
        conditions: Conditions,
    },
    UpdateRows {
        object: Name,
        changes: Changes,
        conditions: Conditions,
    },
    DeleteRows {
        object: Name,
        conditions: Conditions,
    },
    /// Opens the channel of this number, 1 to 3.
    OpenNumber {
        number: u8,
    },
    /// Closes the channel of this number, 1 to 3.
    CloseNumber {
        number: u8,
    },
    /// Goes on with the channel of this number, 0 to 3.
    UseNumber {
        number: u8,
    },
    /// Resets the card.
    Reset,
}
