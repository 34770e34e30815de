// What a literal stands for.
ghost use Rattle.std.specs.Prelude.{◌≡◌, ◌-◌, length};
ghost use Rattle.script.specs.Meanings as meanings;

use arrayvec::ArrayVec;
use scql_base::Octets;

/// The octets that a literal with its quotes stands for.
pub(crate) fn literal_of(octets: &[u8]) -> Option<Octets<200>>
    ensures { result ≡ meanings.literal_of octets.now }
{
    let len = octets.len();
    if len < 2 || !octets.ends_with(b"'") {
        return None;
    }
    if octets.starts_with(b"'") {
        return text_of(&octets[1..len - 1]);
    }
    if octets.starts_with(b"X'") && len > 2 {
        return hexadecimal_of(&octets[2..len - 1]);
    }
    None
}

// The octets between a literal's quotes, with two quotes as one.
fn text_of(inner: &[u8]) -> Option<Octets<200>>
    ensures { result ≡ meanings.text_of inner.now }
{
    let mut text = ArrayVec::<u8, 200>::new();
    let mut behind = false;
    for octet in inner {
        let quote = *octet == b'\'';
        if behind != quote {
            if !quote {
                return None;
            }
            behind = true;
            continue;
        }
        behind = false;
        let len = text.len();
        if len == 200 {
            return None;
        }
        text.push(*octet);
    }
    if behind {
        return None;
    }
    Octets::of(text.as_slice())
}

fn hexadecimal_of(digits: &[u8]) -> Option<Octets<200>>
    ensures { result ≡ meanings.hexadecimal_of digits.now }
{
    if digits.len() > 400 {
        return None;
    }
    let mut held = [0u8; 200];
    let count = digits.len() / 2;
    let room = &mut held[..count];
    hex::decode_to_slice(digits, room).ok()?;
    Octets::of(&held[..count])
}

/// The secret that is presented, of 1 to 255 octets.
pub(crate) fn presented_secret_of(octets: &[u8]) -> Option<Octets<255>>
    ensures { result ≡ meanings.presented_secret_of octets.now }
{
    let secret = literal_of(octets)?;
    if secret.as_slice().is_empty() {
        return None;
    }
    Octets::of(secret.as_slice())
}

/// The secret that a user gets, of no octets or 4 to 8.
pub(crate) fn given_secret_of(octets: &[u8]) -> Option<Octets<8>>
    ensures { result ≡ meanings.given_secret_of octets.now }
{
    let secret = literal_of(octets)?;
    let len = secret.as_slice().len();
    if len == 0 || len >= 4 {
        Octets::of(secret.as_slice())
    } else {
        None
    }
}
