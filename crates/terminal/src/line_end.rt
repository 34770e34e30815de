// How a line ended.
use crate::Refusal;

/// How a line ended.
#[derive(Clone, Copy, PartialEq, Eq, Debug)]
pub enum LineEnd {
    /// Its text was printed.
    Answered,
    /// The same, and its closing line is a refusal or an error.
    Refused { why: Refusal },
    /// The card failed: it answers no more.
    Mute,
    /// Not all of its text was printed.
    SinkFault,
}
