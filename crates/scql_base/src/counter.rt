// The counter of stamps.
use std::marker::Model;

/// The stamp that the next record takes.
#[derive(Clone, Copy, Debug, PartialEq, Eq)]
pub struct Counter {
    pub next: u32,
}

impl Counter {
    /// The first octet of the counter's record.
    pub const MARK: u8 = 0x00;
}

impl Model for Counter {
    ghost use Rattle.std.specs.Prelude.{ℕ};

    ghost Value = { ℕ };

    ghost view = { λ c. c.next };

    ghost inverse = { λ next. record { next = next } };
}
