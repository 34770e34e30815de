// How a line ended at a rack.
use crate::RackRefusal;

/// How a line ended.
#[derive(Clone, Copy, PartialEq, Eq, Debug)]
pub enum RackEnd {
    /// Its text was printed.
    Answered,
    /// The same, and its closing line is a refusal or an error.
    Refused { why: RackRefusal },
    /// The current reader's card failed: it answers no more. The text says so.
    Mute,
    /// Not all of its text was printed.
    SinkFault,
}
