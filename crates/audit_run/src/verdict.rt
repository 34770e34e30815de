// What an audit finds.

/// The verdict on a transcript: the first of these that applies. Lines are counted from 1.
#[derive(Clone, Copy, PartialEq, Eq, Debug, Drop)]
pub enum Verdict {
    /// The image before is no card's.
    NotACard,
    /// A line has neither mark, or is one of output that no line of input stands before.
    Malformed { line: u64 },
    /// To a line of input something else is to be said than was told.
    Differs { line: u64 },
    /// The image afterwards isn't what was committed.
    ImageDiffers,
    /// All is as it is to be, with so many lines of input.
    Yes { lines: u64 },
}
