// The commands that read.
ghost use Rattle.std.specs.Prelude.{◌≡◌, IfSome, option_map};
ghost use Rattle.scql_model.specs.ReadingCommands.{reading_command};
ghost use Rattle.apdu_chain.specs.Le.{IsLe};
ghost use Rattle.plain_reading.specs.Commands.{command_seen};

use apdu_chain::Le;
use scql_base::{Conditions, Name, NameList, Operation};

/// A reading command; those that give octets have an Le, the greatest number of octets wanted.
#[derive(Drop)]
pub enum ReadingCommand<'a> {
    Declare {
        object: &'a Name,
        columns: &'a NameList,
        conditions: &'a Conditions,
    },
    OpenCursor,
    Next,
    Fetch {
        le: Le,
    },
    FetchNext {
        le: Le,
    },
    GetResponse {
        le: Le,
    },
}

impl<'a> ReadingCommand<'a> {
    /// The reading command that an operation is with its Le, if it is one.
    pub fn of(operation: &'a Operation, le: Option<u16>) -> Option<ReadingCommand<'a>>
        requires { IfSome le IsLe }
        ensures { option_map command_seen result ≡ reading_command operation.now le }
    {
        match operation {
            Operation::DeclareCursor {
                object,
                columns,
                conditions,
            } => Some(ReadingCommand::Declare {
                object,
                columns,
                conditions,
            }),
            Operation::OpenCursor => Some(ReadingCommand::OpenCursor),
            Operation::Next => Some(ReadingCommand::Next),
            Operation::Fetch => Some(ReadingCommand::Fetch { le: Le::new(le?) }),
            Operation::FetchNext => Some(ReadingCommand::FetchNext { le: Le::new(le?) }),
            Operation::GetResponse => Some(ReadingCommand::GetResponse { le: Le::new(le?) }),
            _ => None,
        }
    }
}
