// Octet strings of a bounded length.
ghost use Rattle.std.specs.Prelude.{◌≡◌, ◌≤◌, ◌↔◌, [], IsSome, length};
ghost use Rattle.scql_base.specs.Octets.{GivesOctets, within};

use crate::Copied;
use arrayvec::ArrayVec;
use std::marker::Model;

/// A string of at most `CAP` octets.
#[derive(Drop)]
pub struct Octets<const CAP: usize> {
    held: ArrayVec<u8, CAP>,
}

impl<const CAP: usize> Model for Octets<CAP> {
    ghost use Rattle.std.specs.Prelude.{List, ℕ, length, ◌≤◌};

    ghost Value = { List ℕ };

    ghost view = { λ o. o.held.items };

    ghost invariant = { λ o. length o.held.items ≤ CAP };
}

impl<const CAP: usize> Octets<CAP> {
    /// The string of these octets, where they aren't too many.
    pub fn of(octets: &[u8]) -> Option<Self>
        ensures value { result ≡ within CAP octets.now }
        ensures found { IsSome result ↔ (length octets.now ≤ CAP) }
    {
        let mut held = ArrayVec::new();
        match held.try_extend_from_slice(octets) {
            Ok(()) => Some(Octets { held }),
            Err(_) => None,
        }
    }

    /// No octets.
    pub(crate) fn empty() -> Self
        ensures { result ≡ [] }
    {
        Octets {
            held: ArrayVec::new(),
        }
    }

    /// The octets themselves.
    pub fn as_slice(&self) -> &[u8]
        ensures { GivesOctets CAP self.now result.now }
    {
        self.held.as_slice()
    }

    // Does nothing but tell a proof how long this is at most.
    pub(crate) fn told(&self)
        ensures { length self.now ≤ CAP }
    {
        let _ = &self.held;
    }
}

impl<const CAP: usize> Copied for Octets<CAP> {
    fn copy(&self) -> Self {
        let mut held = ArrayVec::new();
        let copied = held.try_extend_from_slice(self.held.as_slice()).is_ok();
        prove!(copied);
        Octets { held }
    }
}
