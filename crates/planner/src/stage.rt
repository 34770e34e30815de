// What a plan waits for.
use crate::Closing;
use scql_base::StatusWord;

/// What a plan waits for: the answer to one of its commands.
#[derive(Clone, Copy, PartialEq, Eq, Debug)]
pub(crate) enum Stage {
    /// Nothing was sent yet.
    Start,
    /// The statement's only command.
    Alone,
    /// BEGIN
    Beginning,
    /// DECLARE CURSOR
    Declaring,
    /// OPEN
    Opening,
    /// FETCH, FETCH NEXT or GET RESPONSE
    Fetching,
    /// UPDATE or DELETE
    Changing,
    /// NEXT
    Moving,
    /// COMMIT
    Committing,
    /// ROLLBACK, after another command was refused with this word.
    RollingBack { word: StatusWord },
    /// Nothing is sent any more.
    Ended { closing: Closing },
}
