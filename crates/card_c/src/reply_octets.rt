// A reply as octets.
ghost use Rattle.std.specs.Prelude.{◌≡◌, ◌+◌, ◌≤◌, length};
ghost use Rattle.eeprom.specs.Image.{overwrite};
ghost use Rattle.eeprom.specs.StoreOf.{two_octets};
ghost use Rattle.card_c.specs.HeldCard.{AnswersInto};

use apdu::Reply;

/// How many octets a reply has at most: 256 of data, and a status word.
pub const LONGEST_REPLY: usize = 258;

/// Writes the data and then the status word, and answers how many octets these are.
pub fn write_octets(reply: &Reply, into: &mut [u8]) -> usize
    requires { 258 ≤ length into.old }
    ensures { AnswersInto reply.now result into.new }
{
    let body = reply.body.as_slice();
    write_over(into, 0, body);
    write_over(into, body.len(), &octets_of(reply.word.word));
    body.len() + 2
}

// The two octets of a number.
fn octets_of(number: u16) -> [u8; 2]
    ensures { result ≡ two_octets number }
{
    number.to_be_bytes()
}

// The octets of the range are these, and all else stays.
fn write_over(into: &mut [u8], at: usize, octets: &[u8])
    requires { at + length octets.now ≤ length into.old }
    ensures { into.new ≡ overwrite into.old at octets.now }
{
    into[at..at + octets.len()].copy_from_slice(octets);
}
