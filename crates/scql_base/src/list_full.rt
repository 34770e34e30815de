// What a list answers that takes no more.
use thiserror::Error;

/// A list that has no room for one more.
#[derive(Clone, Copy, PartialEq, Eq, Debug, Error)]
#[error("list full")]
pub struct ListFull;
