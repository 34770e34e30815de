// How many cells an image has.
ghost use Rattle.std.specs.Prelude.{◌≡◌, ◌≤◌};
ghost use Rattle.eeprom.specs.StoreOf.{most_cells};
ghost use Rattle.plain_database.specs.Within.{IsAtMost};

use std::marker::Model;

/// The number of cells of an image, which has them twice.
#[derive(Clone, Copy)]
pub(crate) struct Cells {
    number: u16,
}

impl Model for Cells {
    ghost use Rattle.std.specs.Prelude.{ℕ, ◌≤◌};
    ghost use Rattle.eeprom.specs.StoreOf.{most_cells};

    ghost Value = { ℕ };

    ghost view = { λ cells. cells.number };

    ghost inverse = { λ number. record { number = number } };

    ghost invariant = { λ cells. cells.number ≤ most_cells };
}

impl Cells {
    /// So many cells.
    pub(crate) fn new(number: u16) -> Cells
        requires { number ≤ most_cells }
        ensures { result ≡ number }
    {
        Cells { number }
    }

    /// Their number.
    pub(crate) fn number(self) -> u16
        ensures { IsAtMost most_cells result self }
    {
        self.number
    }
}
