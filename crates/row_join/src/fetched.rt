// The rows of an object.
ghost use Rattle.std.specs.Prelude.{◌≡◌};

use eeprom::Heap;
use scql_base::Row;
use std::marker::Model;

/// The rows of one of the objects that are joined, in their order.
#[derive(Drop)]
pub struct Fetched {
    pub rows: Vec<Row, Heap>,
}

impl Model for Fetched {
    ghost use Rattle.std.specs.Prelude.{List};
    ghost use Rattle.scql_model.specs.Matching.{Values};

    ghost Value = { List Values };

    ghost view = { λ f. f.rows.items };
}

impl Fetched {
    /// The rows.
    pub fn rows(&self) -> &[Row]
        ensures { result.now ≡ self.now }
    {
        self.rows.as_slice()
    }
}
