// Which of a cursor's rows is sought.
ghost use Rattle.std.specs.Prelude.{◌≡◌, filter};
ghost use Rattle.plain_database.specs.Sought as model;

use crate::{Rising, Stamped};

/// Which of the rows that a cursor shows is sought.
#[derive(Clone, Copy, PartialEq, Eq, Debug)]
pub enum Sought {
    First,
    /// The first behind the row of a stamp.
    Behind { stamp: u32 },
    /// The row of a stamp.
    At { stamp: u32 },
}

impl Sought {
    /// Those of some records whose rows may be the one.
    pub fn admitted<'a, R: Stamped>(self, rising: &Rising<'a, R>) -> &'a [R]
        ensures { result.now ≡ filter (λ r. model.admits self (R.stamp_of r)) rising.now.records.now }
    {
        let records = rising.records;
        match self {
            Sought::First => records,
            Sought::Behind { stamp } => {
                let from = records.partition_point(|record| record.stamp() <= stamp);
                &records[from..]
            }
            Sought::At { stamp } => match rising.place_of(stamp) {
                Some(place) => &records[place..place + 1],
                None => &[],
            },
        }
    }
}
