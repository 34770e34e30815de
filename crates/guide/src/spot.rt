// A place of a line, and what may stand there.
use crate::words::NAMES;
use crate::{Grammar, may_stand};
use script::Tokens;

/// A place of a line of a grammar.
#[derive(Drop)]
pub(crate) struct Spot<'a, G: Grammar> {
    pub(crate) grammar: &'a G,
    /// What stands before it.
    pub(crate) before: &'a [u8],
    /// What stands there, and behind it.
    pub(crate) rest: &'a [u8],
}

impl<'a, G: Grammar> Spot<'a, G> {
    /// A place of a line, or its end where that comes first.
    pub(crate) fn at(grammar: &'a G, line: &'a [u8], place: usize) -> Spot<'a, G> {
        let (before, rest) = line.split_at(place.min(line.len()));
        Spot {
            grammar,
            before,
            rest,
        }
    }

    pub(crate) fn stands(&self, token: &[u8]) -> bool {
        may_stand(self.grammar, self.before, token)
    }

    /// Whether a name may stand here that the line doesn't have.
    pub(crate) fn takes_name(&self) -> bool {
        for name in NAMES {
            if self.stands(name) {
                return true;
            }
        }
        false
    }

    /// Whether a value of some length may stand here, or a secret.
    pub(crate) fn takes_value(&self) -> bool {
        self.stands(b"'1'") || self.stands(b"'1234'")
    }

    /// The token that stands here.
    pub(crate) fn token(&self) -> &'a [u8] {
        Tokens::new(self.rest).next()
    }

    /// Whether the line begins here.
    pub(crate) fn is_first(&self) -> bool {
        Tokens::new(self.before).is_at_end()
    }
}
