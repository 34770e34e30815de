// What the records of each kind have in common.
ghost use Rattle.scql_model.specs.Edits.{AnyRecord, cells_of_record, of_grant, of_object, of_row, of_user};
ghost use Rattle.plain_database.specs.Within.{IsAtMost};

use crate::Stamped;
use crate::sizes::{cells_for, object_size};
use scql_base::{Copied, Grant, Object, Row, RowRecord, User};

/// A record of one kind.
pub(crate) trait Record: Stamped + Copied {
    /// The record among those of all kinds.
    ghost entry: { Self → AnyRecord };

    /// How many cells it takes.
    fn cells(&self) -> u32
        ensures { IsAtMost 65535 result (cells_of_record (entry self.now)) };
}

impl Record for User {
    ghost entry = { λ user. of_user user };

    fn cells(&self) -> u32 {
        cells_for(13 + self.name.octets().len() + self.secret.as_slice().len())
    }
}

impl Record for Object {
    ghost entry = { λ object. of_object object };

    fn cells(&self) -> u32 {
        cells_for(object_size(self))
    }
}

impl Record for Grant {
    ghost entry = { λ grant. of_grant grant };

    fn cells(&self) -> u32 {
        cells_for(14)
    }
}

impl Record for RowRecord {
    ghost entry = { λ row. of_row row };

    fn cells(&self) -> u32 {
        prove!(self.row.len() <= Row::MOST);
        cells_for(9 + self.row.size())
    }
}
