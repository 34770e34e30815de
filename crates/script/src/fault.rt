// Why a line is no statement.
use thiserror::Error;

/// Why a line is no statement.
#[derive(Clone, Copy, PartialEq, Eq, Debug, Error)]
pub enum ScriptFault {
    /// The line is in no statement's grammar: `place` octets stand before the first token that no statement has there.
    #[error("error at {place}")]
    At { place: u16 },
    /// The line is a statement, but a row or one of its commands would be too large.
    #[error("error too large")]
    TooLarge,
}
