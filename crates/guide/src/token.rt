// Pieces of a line, as a person sees them.
use arrayvec::ArrayVec;

/// How many octets of a word are looked at.
const WORD_ROOM: usize = 16;

/// A word, or as much of it as is looked at.
pub type Word = ArrayVec<u8, WORD_ROOM>;

pub(crate) fn is_blank(octet: u8) -> bool {
    octet == b' ' || octet == b'\t' || octet == b'\r'
}

fn is_of_word(octet: u8) -> bool {
    octet.is_ascii_alphanumeric() || octet == b'_'
}

// Whether an octet ends what somebody would write for a value.
fn ends_piece(octet: u8) -> bool {
    is_blank(octet)
        || matches!(
            octet,
            b',' | b'(' | b')' | b';' | b'\'' | b'=' | b'<' | b'>'
        )
}

// Octets before and behind the first one that ends a piece.
fn split_piece(rest: &[u8]) -> (&[u8], &[u8]) {
    let len = rest.iter().take_while(|octet| !ends_piece(**octet)).count();
    rest.split_at(len)
}

/// The letters of either case, digits and `_` with which these octets begin.
pub(crate) fn word_of(rest: &[u8]) -> &[u8] {
    let len = rest.iter().take_while(|octet| is_of_word(**octet)).count();
    &rest[..len]
}

/// How many of these octets, at their end, could be the start of a word.
pub(crate) fn open_word_len(before: &[u8]) -> usize {
    before
        .iter()
        .rev()
        .take_while(|octet| is_of_word(**octet))
        .count()
}

/// What stands before the first blank, comma, bracket, quote, sign of comparison or semicolon.
pub(crate) fn piece_of(rest: &[u8]) -> &[u8] {
    split_piece(rest).0
}

/// What stands behind that.
pub(crate) fn behind_piece(rest: &[u8]) -> &[u8] {
    split_piece(rest).1
}

/// The octets without the blanks with which they begin.
pub(crate) fn after_blanks(line: &[u8]) -> &[u8] {
    let len = line.iter().take_while(|octet| is_blank(**octet)).count();
    &line[len..]
}

/// A word in capital letters.
pub(crate) fn in_capitals(word: &[u8]) -> Word {
    let mut capitals = ArrayVec::new();
    for octet in word {
        let _ = capitals.try_push(octet.to_ascii_uppercase());
    }
    capitals
}

/// How many octets a literal has that is closed, `''` being one.
pub(crate) fn value_len(token: &[u8]) -> Option<usize> {
    match token {
        [b'X', b'\'', digits @ .., b'\''] => Some(digits.len() / 2),
        [b'\'', inside @ .., b'\''] => Some(inside.len().saturating_sub(quotes_of(inside) / 2)),
        _ => None,
    }
}

fn quotes_of(inside: &[u8]) -> usize {
    inside.iter().filter(|octet| **octet == b'\'').count()
}

/// Whether a word looks like another: they begin with the same three letters, or are as long and differ in at most two places.
pub(crate) fn looks_like(word: &[u8], other: &[u8]) -> bool {
    let same = word.iter().zip(other).take_while(|(a, b)| a == b).count();
    let differ = word.iter().zip(other).filter(|(a, b)| a != b).count();
    same >= 3 || (word.len() > 2 && word.len() == other.len() && differ <= 2)
}
