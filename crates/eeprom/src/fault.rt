// What a device answers where it fails. Why it failed isn't told; its count of faults is.
use thiserror::Error;

/// An EEPROM that didn't read or write.
#[derive(Clone, Copy, PartialEq, Eq, Debug, Error)]
#[error("eeprom fault")]
pub struct EepromFault;

/// An outlet that didn't take a whole piece of output.
#[derive(Clone, Copy, PartialEq, Eq, Debug, Error)]
#[error("write fault")]
pub struct SinkFault;

/// A source that couldn't say what comes next.
#[derive(Clone, Copy, PartialEq, Eq, Debug, Error)]
#[error("read fault")]
pub struct SourceFault;
