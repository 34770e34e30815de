// How a command was answered.

/// How a command was answered.
#[derive(Clone, Copy, PartialEq, Eq, Debug)]
pub enum Outcome {
    /// The reply is the card's.
    Replied,
    /// The card failed: it answers no more.
    Mute,
}
