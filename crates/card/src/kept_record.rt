// A record of a card, of whatever kind but the counter, as contracts see it.
use scql_base::{Grant, Object, RowRecord, User};

/// A record of a card, of whatever kind but the counter. A row comes with the slot of its record. None is made as a card is opened: a
/// `SpelledRecord` is one.
#[derive(Drop)]
pub(crate) enum KeptRecord {
    User(User),
    Object(Object),
    Grant(Grant),
    Row { slot: u16, row: RowRecord },
}
