// The tokens of a line, read one by one.
ghost use Rattle.std.specs.Prelude.{◌≡◌, ◌≤◌, ◌↔◌, IsSome, IsTrue, length, if◌then◌else◌};
ghost use Rattle.script.specs.Reading.{behind, is_end, is_next, left_of, octets_of, the};
ghost use Rattle.script.specs.Tokens as tokens;

use crate::token::{is_blank, token_len};
use std::marker::Model;

/// The tokens of a line that aren't read yet.
///
/// A rule of a grammar is a function over them: it goes past the tokens that it stands for, and answers what they are. Where it
/// answers None, the next token is the one at fault.
#[derive(Drop)]
pub struct Tokens<'a> {
    rest: &'a [u8],
}

impl<'a> Model for Tokens<'a> {
    ghost use Rattle.std.specs.Prelude.{List};
    ghost use Rattle.script.specs.Tokens.{Token, tokens_of};

    ghost Value = { List Token };

    ghost view = { λ r. tokens_of r.rest.now };
}

impl<'a> Tokens<'a> {
    /// All tokens of a line.
    pub fn new(line: &'a [u8]) -> Tokens<'a>
        ensures { result ≡ tokens.tokens_of line.now }
    {
        Tokens { rest: line }
    }

    /// The octets of the next token, none at the line's end.
    pub fn next(&self) -> &'a [u8]
        ensures { result.now ≡ octets_of self.now }
    {
        self.cut().0
    }

    /// Goes past the next token.
    pub fn skip(&mut self)
        ensures { self.new ≡ behind self.old }
    {
        self.rest = self.cut().1;
    }

    // The octets of the next token, and the line behind it.
    fn cut(&self) -> (&'a [u8], &'a [u8])
        ensures token { result.0.now ≡ octets_of self.now }
        ensures rest { tokens.tokens_of result.1.now ≡ behind self.now }
    {
        let line = after_blanks(self.rest);
        line.split_at(token_len(line))
    }

    /// How many octets of the line there are from the next token on.
    pub fn left(&self) -> usize
        ensures { result ≡ left_of self.now }
    {
        after_blanks(self.rest).len()
    }

    /// Are all tokens read?
    pub fn is_at_end(&self) -> bool
        ensures { result ≡ is_end self.now }
    {
        after_blanks(self.rest).is_empty()
    }

    /// Goes past the next token where it is this one, and tells whether it is.
    pub fn takes(&mut self, text: &[u8]) -> bool
        ensures value { result ≡ is_next text.now self.old }
        ensures rest { self.new ≡ (if result then behind self.old else self.old) }
    {
        let (token, rest) = self.cut();
        let found = token == text;
        if found {
            self.rest = rest;
        }
        found
    }

    /// Goes past the next token, which has to be this one: any other is at fault.
    #[tactic(auto, unfolding(crate::specs::Reading::the))]
    pub fn expect(&mut self, text: &[u8]) -> Option<()>
        ensures { the text.now self.old ≡ (result, self.new) }
    {
        if self.takes(text) { Some(()) } else { None }
    }
}

pub(crate) fn after_blanks(line: &[u8]) -> &[u8]
    ensures { result.now ≡ tokens.after_blanks line.now }
{
    &line[blanks_len(line)..]
}

fn blanks_len(line: &[u8]) -> usize
    ensures { result ≡ tokens.blanks_len line.now }
{
    line.iter().take_while(|octet| is_blank(**octet)).count()
}
