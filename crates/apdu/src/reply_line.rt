// Replies, printed as lines.
ghost use Rattle.std.specs.Prelude.{◌≡◌, ◌+◌, ◌*◌, ◌≤◌, length, take};
ghost use Rattle.hex.specs.Hex.{encode_lower, encode_upper};
ghost use Rattle.scql_model.specs.Lines as model;

use crate::Reply;

/// How many octets the line of a reply has at most: 256 data octets and a status word in hexadecimal, and a line feed.
pub const LONGEST_REPLY_LINE: usize = 517;

// How many digits a status word has.
const WORD_DIGITS: usize = 4;

/// Writes a reply in hexadecimal, its digits in upper case, and a line feed to the front of a place, and tells how many octets that takes.
pub fn write_reply(text: &mut [u8; LONGEST_REPLY_LINE], reply: &Reply) -> usize
    ensures text { take result text.new ≡ model.reply_text reply.now }
    ensures within { result ≤ LONGEST_REPLY_LINE }
{
    let end = 2 * reply.body.len() + WORD_DIGITS;
    write_digits(&mut text[..end], reply);
    text[end] = b'\n';
    end + 1
}

// Writes the body and the word.
fn write_digits(digits: &mut [u8], reply: &Reply)
    requires { length digits.old ≡ 2 * length reply.now.body + WORD_DIGITS }
    ensures { digits.new ≡ encode_upper (model.reply_octets reply.now) }
{
    let (body, word) = digits.split_at_mut(2 * reply.body.len());
    print_into(&reply.body, body);
    print_into(&reply.word.word.to_be_bytes(), word);
    digits.make_ascii_uppercase();
}

fn print_into(octets: &[u8], digits: &mut [u8])
    requires { length digits.old ≡ 2 * length octets.now }
    ensures { digits.new ≡ encode_lower octets.now }
{
    let fits = hex::encode_to_slice(octets, digits).is_ok();
    prove!(fits);
}
