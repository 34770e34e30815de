// The four privileges.
ghost use Rattle.std.specs.Prelude.{◌≡◌, ◌<◌};
ghost use Rattle.scql_model.specs.Rights.{has_bit};
ghost use Rattle.plain_database.specs.Privileged.{bit_of};

use scql_base::Privileges;

/// One of the four privileges.
#[derive(Clone, Copy, PartialEq, Eq, Debug)]
pub enum Privilege {
    Select,
    Insert,
    Update,
    Delete,
}

impl Privilege {
    /// Its bit among those of a grant.
    pub fn bit(self) -> u8
        ensures bit { result ≡ bit_of self }
        ensures some { 0 < result }
    {
        match self {
            Privilege::Select => Privileges::SELECT,
            Privilege::Insert => Privileges::INSERT,
            Privilege::Update => Privileges::UPDATE,
            Privilege::Delete => Privileges::DELETE,
        }
    }

    /// Whether it is among privileges.
    pub fn is_among(self, privileges: Privileges) -> bool
        ensures { result ≡ has_bit (bit_of self) privileges }
    {
        privileges.bits / self.bit() % 2 == 1
    }
}
