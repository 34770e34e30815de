// What a session keeps: its user, and where it reads.
use crate::{Conditions, Copied, NameList};

/// Where a cursor stands: before its first opening, at the row of a stamp, or past the last row.
#[derive(Clone, Copy, PartialEq, Eq, Debug)]
pub enum Place {
    NotOpen,
    At { stamp: u32 },
    End,
}

/// A cursor over an object, which is named by its stamp: the columns that it shows, and the conditions on its rows.
#[derive(Drop)]
pub struct Cursor {
    pub object: u32,
    pub columns: NameList,
    pub conditions: Conditions,
    pub place: Place,
}

impl Copied for Cursor {
    fn copy(&self) -> Cursor {
        Cursor {
            object: self.object,
            columns: self.columns.copy(),
            conditions: self.conditions.copy(),
            place: self.place,
        }
    }
}

/// A user who was presented, by the stamp of its record, and whether that user is proved.
#[derive(Clone, Copy, PartialEq, Eq, Debug)]
pub struct PresentedUser {
    pub stamp: u32,
    pub proved: bool,
}
