// The octets of a row as they come, and the row that they are.
ghost use Rattle.std.specs.Prelude.{◌≡◌, ◌≤◌, ◌+◌, [], ◌++◌, length, option_copied, take};
ghost use Rattle.scql_base.specs.Row.{row_from};
ghost use Rattle.scql_base.specs.declared.row.TheConstants.Row.{LARGEST};
ghost use Rattle.planner.specs.Planned as planned;

use arrayvec::ArrayVec;
use scql_base::Row;
use std::marker::Model;

/// Octets that may be a row. Each time that some came they are read, so that whoever wants the row needn't read it again.
#[derive(Drop)]
pub(crate) struct RowOctets {
    octets: ArrayVec<u8, { Row::LARGEST }>,
    // The row, where the octets are one.
    values: Row,
    are_row: bool,
}

impl Model for RowOctets {
    ghost use Rattle.std.specs.Prelude.{List, ℕ, ◌≡◌, Some, None, if◌then◌else◌};
    ghost use Rattle.scql_base.specs.Row.{row_from};

    ghost Value = { List ℕ };

    ghost view = { λ r. r.octets.items };

    ghost invariant = { λ r. (if r.are_row then Some r.values else None) ≡ row_from r.octets.items };
}

impl RowOctets {
    /// No octets, which are a row of no values.
    pub fn new() -> RowOctets
        ensures { result ≡ [] }
    {
        RowOctets {
            octets: ArrayVec::new(),
            values: Row::new(),
            are_row: true,
        }
    }

    /// Puts octets behind the first ones, in the place of the others.
    pub fn put_behind(&mut self, first: usize, octets: &[u8])
        requires within { first ≤ length self.old }
        requires room { first + length octets.now ≤ LARGEST }
        ensures { self.new ≡ take first self.old ++ octets.now }
    {
        self.octets.truncate(first);
        let fits = self.octets.try_extend_from_slice(octets).is_ok();
        prove!(fits);
        self.are_row = self.values.read_into(self.octets.as_slice()).is_some();
    }

    pub fn as_slice(&self) -> &[u8]
        ensures { result.now ≡ self.now }
    {
        self.octets.as_slice()
    }

    /// The row that the octets are.
    pub fn row(&self) -> Option<&Row>
        ensures { option_copied result ≡ row_from self.now }
    {
        if self.are_row {
            Some(&self.values)
        } else {
            None
        }
    }

    /// Whether the octets are a row of at least one value.
    pub fn is_row(&self) -> bool
        ensures { result ≡ planned.is_row self.now }
    {
        match self.row() {
            Some(row) => row.len() > 0,
            None => false,
        }
    }
}
