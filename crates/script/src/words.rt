// What the words and signs of a statement stand for.
ghost use Rattle.std.specs.Prelude.{◌≡◌, ◌≤◌, IfSome};
ghost use Rattle.script.specs.Meanings as meanings;

use scql_base::{Comparison, Privileges, Profile, Subject};

pub(crate) fn comparison_of(octets: &[u8]) -> Option<Comparison>
    ensures { result ≡ meanings.comparison_of octets.now }
{
    match octets {
        b"=" => Some(Comparison::Equal),
        b"<" => Some(Comparison::Less),
        b">" => Some(Comparison::Greater),
        b"<=" => Some(Comparison::AtMost),
        b">=" => Some(Comparison::AtLeast),
        b"<>" => Some(Comparison::NotEqual),
        _ => None,
    }
}

pub(crate) fn privilege_of(octets: &[u8]) -> Option<u8>
    ensures value { result ≡ meanings.privilege_of octets.now }
    ensures bit { IfSome result (λ bit. (1 ≤ bit) × (bit ≤ 8)) }
{
    if octets == b"SELECT".as_slice() {
        Some(Privileges::SELECT)
    } else if octets == b"INSERT".as_slice() {
        Some(Privileges::INSERT)
    } else if octets == b"UPDATE".as_slice() {
        Some(Privileges::UPDATE)
    } else if octets == b"DELETE".as_slice() {
        Some(Privileges::DELETE)
    } else {
        None
    }
}

pub(crate) fn subject_of(octets: &[u8]) -> Option<Subject>
    ensures { result ≡ meanings.subject_of octets.now }
{
    match octets {
        b"O" => Some(Subject::Objects),
        b"U" => Some(Subject::Users),
        b"P" => Some(Subject::Grants),
        _ => None,
    }
}

pub(crate) fn profile_of(octets: &[u8]) -> Option<Profile>
    ensures { result ≡ meanings.profile_of octets.now }
{
    match octets {
        b"DBOO" => Some(Profile::Dboo),
        b"DBBU" => Some(Profile::Dbbu),
        _ => None,
    }
}

pub(crate) fn further_channel_of(octets: &[u8]) -> Option<u8>
    ensures { result ≡ meanings.further_channel_of octets.now }
{
    match octets {
        b"1" => Some(1),
        b"2" => Some(2),
        b"3" => Some(3),
        _ => None,
    }
}

pub(crate) fn channel_of(octets: &[u8]) -> Option<u8>
    ensures { result ≡ meanings.channel_of octets.now }
{
    match octets {
        b"0" => Some(0),
        _ => further_channel_of(octets),
    }
}
