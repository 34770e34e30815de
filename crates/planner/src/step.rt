// The steps of a plan.
use crate::Closing;
use scql_base::Command;

/// What a plan wants to be done next.
#[derive(Drop)]
pub enum Step {
    /// The command is sent, in parts where it needs them.
    Send { command: Command },
    /// The plan has a row, and the command is sent.
    Row { command: Command },
    /// The card is reset.
    ResetCard,
    /// The statement is at its end.
    Done { closing: Closing },
}
