// What may stand at a place, as a list.
use crate::spot::Spot;
use crate::token::{in_capitals, looks_like, word_of};
use crate::words::TOKENS;
use crate::{Dialect, Message};

/// A list that is told one by one: `A, B or C`.
#[derive(Drop)]
struct Listing {
    /// What comes next, once it is known whether it is the last.
    next: Option<&'static [u8]>,
    begun: bool,
}

impl Listing {
    fn new() -> Listing {
        Listing {
            next: None,
            begun: false,
        }
    }

    fn add(&mut self, what: &'static [u8], message: &mut Message) {
        if let Some(before) = self.next {
            if self.begun {
                message.put(b", ");
            }
            message.put(before);
            self.begun = true;
        }
        self.next = Some(what);
    }

    fn end(&mut self, message: &mut Message) {
        if let Some(last) = self.next {
            if self.begun {
                message.put(b" or ");
            }
            message.put(last);
        }
        self.next = None;
    }
}

/// Puts what may stand at a place, and which of these looks like what stands there.
pub(crate) fn put_standing<D: Dialect>(spot: &Spot<D>, message: &mut Message) {
    if spot.is_first() {
        message.put(b"a ");
        message.put(spot.grammar.kind());
        message.put(b" begins with ");
    } else {
        message.put(b"here stands ");
    }
    if put_list(spot, message) {
        put_nearest(spot, message);
    }
}

// Tells whether there are several.
fn put_list<D: Dialect>(spot: &Spot<D>, message: &mut Message) -> bool {
    let mut listing = Listing::new();
    let named = spot.takes_name();
    if named {
        listing.add(b"a name", message);
    }
    if spot.stands(b"'1'") {
        listing.add(b"a value", message);
    } else if spot.stands(b"'1234'") {
        listing.add(b"a secret", message);
    }
    for token in TOKENS {
        if may_be_told(token, named) && spot.stands(token) {
            listing.add(token, message);
        }
    }
    if !spot.is_first() && spot.stands(b"") {
        listing.add(b"the end", message);
    }
    listing.end(message);
    listing.begun
}

// Where a name may stand each word is one.
fn may_be_told(token: &[u8], named: bool) -> bool {
    !named || word_of(token).is_empty()
}

// A word that may stand there, and looks like the one that does.
fn put_nearest<D: Dialect>(spot: &Spot<D>, message: &mut Message) {
    let word = in_capitals(word_of(spot.rest));
    if word.is_empty() || spot.takes_name() {
        return;
    }
    for token in TOKENS {
        if looks_like(token, word.as_slice()) && spot.stands(token) {
            message.put(b"; the nearest is ");
            message.put(token);
            return;
        }
    }
}
