// How a line ended of which nothing is printed.
use planner::Closing;

/// How a line ended of which nothing is printed.
#[derive(Clone, Copy, PartialEq, Eq, Debug)]
pub enum QuietEnd {
    /// The statement closed so.
    Closed { closing: Closing },
    /// The line is no statement.
    Faulty,
    /// The card failed: it answers no more.
    Mute,
}
