// Why a row takes no further value.
use thiserror::Error;

/// Why a row takes no further value.
#[derive(Clone, Copy, PartialEq, Eq, Debug, Error)]
pub enum RowRefusal {
    /// It has 15 values.
    #[error("too many values")]
    TooMany,
    /// The value is over 200 octets, or the row's size would be over 1,020.
    #[error("row too wide")]
    TooWide,
}
