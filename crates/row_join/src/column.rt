// The columns of a join, and which of them are to be equal.

/// A column of one of the objects that are joined.
#[derive(Clone, Copy, PartialEq, Eq, Debug, Drop)]
pub struct Column {
    /// The object, counted from 0.
    pub object: usize,
    /// The place of the column among the object's fetched columns, counted from 0.
    pub place: usize,
}

/// Two columns whose values are to be the same, octet by octet.
#[derive(Clone, Copy, PartialEq, Eq, Debug, Drop)]
pub struct Equality {
    pub left: Column,
    pub right: Column,
}
