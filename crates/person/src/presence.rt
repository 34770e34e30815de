// How a person follows a run.

/// How a person follows a run.
#[derive(Clone, Copy, PartialEq, Eq, Debug)]
pub enum Presence {
    /// Nobody follows it.
    Away,
    /// Somebody reads what is shown, of lines that come from elsewhere.
    Watching,
    /// Somebody types its lines, and reads what is shown.
    Typing,
}
