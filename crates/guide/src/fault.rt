// What is said of a line that is in no grammar.
use crate::reason::Reason;
use crate::spot::Spot;
use crate::standing::put_standing;
use crate::token::open_word_len;
use crate::{Dialect, Message};

/// Puts a line behind a margin, a mark below the place of its fault, and what may stand there.
#[inline(never)]
pub(crate) fn put_fault<D: Dialect>(dialect: &D, line: &[u8], place: usize, message: &mut Message) {
    let margin = message.len();
    let spot = Spot::at(dialect, line, place);
    for octet in line {
        message.put(&[shown(*octet)]);
    }
    message.put(b"\n");
    for _ in 0..margin {
        message.put(b" ");
    }
    for _ in spot.before {
        message.put(b" ");
    }
    message.put(b"^ ");
    put_reason(&spot, line, message);
}

// Why the token at a place is at fault. Where it goes on with a word that is begun, that is told of the whole word.
fn reason_at<'a, D: Dialect>(spot: &Spot<'a, D>, line: &'a [u8]) -> Reason<'a> {
    if goes_on(spot.rest) {
        let start = spot.before.len().saturating_sub(open_word_len(spot.before));
        if let Some(reason) = Spot::at(spot.grammar, line, start).about_words() {
            return reason;
        }
    }
    spot.reason()
}

fn goes_on(rest: &[u8]) -> bool {
    match rest {
        [first, ..] => first.is_ascii_lowercase(),
        [] => false,
    }
}

// An octet as one character of a screen.
fn shown(octet: u8) -> u8 {
    match octet {
        b'\t' | b'\r' => b' ',
        0x20..=0x7E => octet,
        _ => b'?',
    }
}

fn put_reason<D: Dialect>(spot: &Spot<D>, line: &[u8], message: &mut Message) {
    match reason_at(spot, line) {
        Reason::Help => message.put(spot.grammar.help()),
        Reason::Tables => message.put(b"#help tables"),
        Reason::Leaves => message.put(b"^D leaves"),
        Reason::Unclosed => message.put(b"this ' isn't closed"),
        Reason::Digits => message.put(b"X'..' has an even number of digits 0-9, A-F"),
        Reason::Capitals { word } => {
            put_around(b"words are in capital letters: ", &word, b"", message);
        }
        Reason::Size { wanted, len } => put_size(wanted, len, message),
        Reason::Taken { name } => put_around(b"", name, b" is there already", message),
        Reason::Later { name } => put_around(
            b"FROM doesn't name ",
            name,
            b", or this is a 16th column of it",
            message,
        ),
        Reason::NoSecret => message.put(b"a secret that is shown has at least one octet"),
        Reason::Quotes { piece } => put_around(
            b"a value stands in quotes: '",
            piece,
            b"'",
            message,
        ),
        Reason::Full { most, of } => {
            put_size(b"there is a limit of ", most, message);
            put_around(b" ", of, b"", message);
        }
        Reason::NoObject => message.put(b"a column is named with its object, as ITEM.NAME"),
        Reason::Other => put_standing(spot, message),
    }
}

fn put_around(before: &[u8], what: &[u8], behind: &[u8], message: &mut Message) {
    message.put(before);
    message.put(what);
    message.put(behind);
}

fn put_size(before: &[u8], size: usize, message: &mut Message) {
    message.put(before);
    message.put_number(size);
}
