// The octets of a record, as they are written into a chain of cells and read out of one.
use crate::LONGEST_RECORD;
use arrayvec::ArrayVec;

/// The octets of a record.
pub type RecordOctets = ArrayVec<u8, LONGEST_RECORD>;
