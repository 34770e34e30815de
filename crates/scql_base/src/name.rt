// Names of users, objects and columns.
ghost use Rattle.std.specs.Prelude.{◌≡◌, ◌≤◌, ◌↔◌, ◌∷◌, [], IsSome, length};
ghost use Rattle.std.specs.List.{list_all};
ghost use Rattle.scql_base.specs.Name as names;
ghost use Rattle.scql_base.specs.declared.name.TheConstants.Name.{LONGEST};

use crate::Copied;
use std::marker::Model;

/// A name: 1 to 8 octets, a letter `A` to `Z`, then letters, digits `0` to `9` and `_`.
#[derive(Drop)]
pub struct Name {
    // The octets, and behind them such as aren't used.
    octets: [u8; Name::LONGEST],
    len: u8,
}

impl Model for Name {
    ghost use Rattle.std.specs.Prelude.{◌≡◌, ◌≤◌, List, ℕ, length, take};
    ghost use Rattle.scql_base.specs.Name.{IsName};

    ghost Value = { List ℕ };

    ghost view = { λ n. take n.len n.octets };

    ghost invariant = { λ n. IsName (take n.len n.octets) × (n.len ≤ 8) × (length n.octets ≡ 8) };
}

impl Name {
    /// The octets of the longest name.
    pub const LONGEST: usize = 8;

    /// The name of the user with whom a card is made.
    pub const OWNER: &'static [u8] = b"OWNER";

    /// The name of everybody, which no user has.
    pub const PUBLIC: &'static [u8] = b"PUBLIC";

    /// The name that these octets are.
    pub fn read(octets: &[u8]) -> Option<Name>
        ensures value { result ≡ names.name_of octets.now }
        ensures found { IsSome result ↔ names.IsName octets.now }
    {
        if !is_name(octets) {
            return None;
        }
        Some(Name::holding(octets))
    }

    /// Its octets.
    pub fn octets(&self) -> &[u8]
        ensures octets { result.now ≡ self.now }
        ensures name { names.IsName result.now }
        ensures short { length result.now ≤ LONGEST }
    {
        &self.octets[..usize::from(self.len)]
    }

    /// The name `A`.
    pub(crate) fn blank() -> Name
        ensures { result ≡ 0x41 ∷ [] }
    {
        Name::holding(b"A")
    }

    // Does nothing but tell a proof that this is a name.
    pub(crate) fn told(&self)
        ensures { names.IsName self.now }
    {
        let _ = &self.len;
    }

    // The name of these octets, which are one.
    fn holding(octets: &[u8]) -> Name
        requires { names.IsName octets.now }
        ensures { result ≡ octets.now }
    {
        let mut held = [0; Name::LONGEST];
        held[..octets.len()].copy_from_slice(octets);
        Name {
            octets: held,
            len: octets.len() as u8,
        }
    }
}

impl Copied for Name {
    fn copy(&self) -> Name {
        Name {
            octets: self.octets,
            len: self.len,
        }
    }
}

fn is_name(octets: &[u8]) -> bool
    ensures { result ≡ names.is_name octets.now }
{
    match octets {
        [first, rest @ ..] => {
            first.is_ascii_uppercase() && are_name_octets(rest) && rest.len() < Name::LONGEST
        }
        [] => false,
    }
}

fn are_name_octets(octets: &[u8]) -> bool
    ensures { result ≡ list_all names.is_name_octet octets.now }
{
    octets.iter().all(|octet| is_name_octet(*octet))
}

fn is_name_octet(octet: u8) -> bool
    ensures { result ≡ names.is_name_octet octet }
{
    octet.is_ascii_uppercase() || octet.is_ascii_digit() || octet == b'_'
}
