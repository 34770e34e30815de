// The cells of a card.

/// How many cells of a card are used.
#[derive(Clone, Copy, PartialEq, Eq, Debug)]
pub struct Cells {
    pub used: u16,
    /// How many it has.
    pub all: u16,
}
