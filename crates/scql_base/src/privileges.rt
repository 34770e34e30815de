// What a grant allows.
use std::marker::Model;

/// One to four privileges on an object, as the sum of 1 SELECT, 2 INSERT, 4 UPDATE and 8 DELETE.
#[derive(Clone, Copy, PartialEq, Eq, Debug)]
pub struct Privileges {
    pub bits: u8,
}

impl Model for Privileges {
    ghost use Rattle.std.specs.Prelude.{ℕ, ◌≤◌};
    ghost use Rattle.scql_base.specs.declared.privileges.TheConstants.Privileges.{ALL};

    ghost Value = { ℕ };

    ghost view = { λ p. p.bits };

    ghost invariant = { λ p. (1 ≤ p.bits) × (p.bits ≤ ALL) };

    ghost inverse = { λ bits. record { bits = bits } };
}

impl Privileges {
    pub const SELECT: u8 = 1;

    pub const INSERT: u8 = 2;

    pub const UPDATE: u8 = 4;

    pub const DELETE: u8 = 8;

    /// All four.
    pub const ALL: u8 = 15;
}
