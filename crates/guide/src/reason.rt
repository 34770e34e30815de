// Why a token is at fault, in words.
use crate::Grammar;
use crate::spot::Spot;
use crate::token::{Word, in_capitals, piece_of, value_len, word_of};
use scql_base::Name;
use script::Tokens;

/// Why a token is at fault.
#[derive(Drop)]
pub(crate) enum Reason<'a> {
    /// It asks for help,
    Help,
    /// for the tables,
    Tables,
    /// or for the end.
    Leaves,
    /// A quote isn't closed.
    Unclosed,
    /// A literal of hexadecimal digits isn't one.
    Digits,
    /// It isn't in capital letters, and could stand so.
    Capitals { word: Word },
    /// It is too long or too short for what stands there.
    Size { wanted: &'static [u8], len: usize },
    /// It is a name that is there already.
    Taken { name: &'a [u8] },
    /// What comes behind it doesn't go with it.
    Later { name: &'a [u8] },
    /// It is an empty secret that is shown.
    NoSecret,
    /// It has no quotes, and would stand in some.
    Quotes { piece: &'a [u8] },
    /// A list is full.
    Full { most: usize, of: &'static [u8] },
    /// A column lacks its object.
    NoObject,
    /// Something else stands there.
    Other,
}

impl Reason<'_> {
    const NAME: &'static [u8] = b"a name has 1 to 8 of A-Z, 0-9, _; this word has ";

    const VALUE: &'static [u8] = b"a value has at most 200 octets; this has ";

    const SECRET: &'static [u8] = b"a secret has none or 4 to 8 octets; this has ";
}

impl<'a, G: Grammar> Spot<'a, G> {
    /// Why what stands here is at fault.
    pub(crate) fn reason(&self) -> Reason<'a> {
        if let Some(reason) = self.about_help() {
            return reason;
        }
        if let Some(reason) = self.about_quotes() {
            return reason;
        }
        if let Some(reason) = self.about_words() {
            return reason;
        }
        if let Some(reason) = self.about_names() {
            return reason;
        }
        if let Some(reason) = self.about_values() {
            return reason;
        }
        self.about_lists()
    }

    // What a person types who doesn't know the statements yet.
    fn about_help(&self) -> Option<Reason<'a>> {
        if !self.is_first() {
            return None;
        }
        match piece_of(self.rest) {
            b"help" | b"HELP" | b"Help" | b"?" | b".help" | b"\\?" | b"\\h" => Some(Reason::Help),
            b".tables" | b"\\d" | b"\\dt" | b".schema" => Some(Reason::Tables),
            b"exit" | b"EXIT" | b"quit" | b"QUIT" | b".quit" | b".exit" | b"\\q" => {
                Some(Reason::Leaves)
            }
            _ => None,
        }
    }

    fn about_quotes(&self) -> Option<Reason<'a>> {
        let token = self.token();
        if token.starts_with(b"'") && value_len(token).is_none() {
            return Some(Reason::Unclosed);
        }
        if token == b"X".as_slice() && self.rest.starts_with(b"X'") && self.takes_value() {
            return Some(Reason::Digits);
        }
        None
    }

    // Where small letters go on with a word that is begun, it is told of the whole word.
    pub(crate) fn about_words(&self) -> Option<Reason<'a>> {
        if let Some(reason) = self.about_letters() {
            return Some(reason);
        }
        self.about_long_names()
    }

    // A word that would stand here in capital letters.
    fn about_letters(&self) -> Option<Reason<'a>> {
        let word = word_of(self.rest);
        if !word.iter().any(|octet| octet.is_ascii_lowercase()) {
            return None;
        }
        let capitals = in_capitals(word);
        if capitals.len() == word.len() && self.stands(capitals.as_slice()) {
            return Some(Reason::Capitals { word: capitals });
        }
        None
    }

    fn about_long_names(&self) -> Option<Reason<'a>> {
        let len = word_of(self.rest).len();
        if len > Name::LONGEST && self.takes_name() {
            Some(Reason::Size {
                wanted: Reason::NAME,
                len,
            })
        } else {
            None
        }
    }

    fn about_names(&self) -> Option<Reason<'a>> {
        let name = self.token();
        Name::read(name)?;
        if !self.takes_name() {
            return None;
        }
        if self.stands(name) {
            Some(Reason::Later { name })
        } else {
            Some(Reason::Taken { name })
        }
    }

    fn about_values(&self) -> Option<Reason<'a>> {
        if !self.takes_value() {
            return None;
        }
        if let Some(len) = value_len(self.token()) {
            return Some(self.about_len(len));
        }
        let piece = piece_of(self.rest);
        if piece.is_empty() {
            None
        } else {
            Some(Reason::Quotes { piece })
        }
    }

    // A literal that is no value or no secret here.
    fn about_len(&self, len: usize) -> Reason<'a> {
        if !self.stands(b"'1'") {
            Reason::Size {
                wanted: Reason::SECRET,
                len,
            }
        } else if len == 0 {
            Reason::NoSecret
        } else {
            Reason::Size {
                wanted: Reason::VALUE,
                len,
            }
        }
    }

    fn about_lists(&self) -> Reason<'a> {
        match self.token() {
            b"," if self.count_before(b",") >= 14 => Reason::Full {
                most: 15,
                of: self.items(),
            },
            b"AND" if self.count_before(b"AND") >= 7 => Reason::Full {
                most: 8,
                of: b"conditions",
            },
            _ if self.stands(b".") => Reason::NoObject,
            _ => Reason::Other,
        }
    }

    // How often a token stands before this place.
    fn count_before(&self, token: &[u8]) -> usize {
        let mut tokens = Tokens::new(self.before);
        let mut count: usize = 0;
        for _ in 0..self.before.len() {
            if tokens.takes(token) {
                count = count.saturating_add(1);
            } else {
                tokens.skip();
            }
        }
        count
    }

    // What the list is one of.
    fn items(&self) -> &'static [u8] {
        match Tokens::new(self.before).next() {
            b"INSERT" => b"values",
            b"UPDATE" => b"changes",
            _ => b"names",
        }
    }
}
