// The two sides of a transaction.

#[derive(Clone, Copy, PartialEq, Eq, Debug)]
pub enum Side {
    /// The records as they were last committed.
    Committed,
    /// The records as they are in a transaction, and without one as they were committed.
    Working,
}
