// How many octets are wanted.
ghost use Rattle.std.specs.Prelude.{◌≡◌};
ghost use Rattle.apdu_chain.specs.Le.{IsLe};

use std::marker::Model;

/// An Le: the greatest number of octets wanted, 1 to 256.
#[derive(Clone, Copy)]
pub struct Le {
    octets: u16,
}

impl Model for Le {
    ghost use Rattle.std.specs.Prelude.{ℕ};
    ghost use Rattle.apdu_chain.specs.Le.{IsLe};

    ghost Value = { ℕ };

    ghost view = { λ le. le.octets };

    ghost inverse = { λ octets. record { octets = octets } };

    ghost invariant = { λ le. IsLe le.octets };
}

impl Le {
    /// The Le of so many octets.
    pub fn new(octets: u16) -> Le
        requires { IsLe octets }
        ensures { result ≡ octets }
    {
        Le { octets }
    }

    /// How many octets are wanted.
    pub fn octets(self) -> u16
        ensures octets { result ≡ self }
        ensures le { IsLe result }
    {
        self.octets
    }
}
