// What is left of an answer that is given in parts (ISO/IEC 7816-4, GET RESPONSE).
ghost use Rattle.std.specs.Prelude.{◌≡◌, ◌≢◌, ◌≤◌, ◌==◌, [], length};
ghost use Rattle.scql_base.specs.declared.row.TheConstants.Row.{LARGEST};
ghost use Rattle.scql_model.specs.ReadingCommands.{rest_word};
ghost use Rattle.apdu_chain.specs.Pending.{IsCut};

use crate::Le;
use apdu::Reply;
use arrayvec::ArrayVec;
use scql_base::{Row, StatusWord};
use std::marker::Model;

/// The octets of a row that are still to be given, at most 1,020.
#[derive(Drop)]
pub struct Pending {
    octets: ArrayVec<u8, { Row::LARGEST }>,
    given: usize,
}

impl Model for Pending {
    ghost use Rattle.std.specs.Prelude.{◌≤◌, List, ℕ, drop, length};

    ghost Value = { List ℕ };

    ghost view = { λ p. drop p.given p.octets.items };

    ghost invariant = { λ p. p.given ≤ length p.octets.items };
}

impl Pending {
    /// Nothing is pending.
    pub fn new() -> Pending
        ensures { result ≡ [] }
    {
        Pending {
            octets: ArrayVec::new(),
            given: 0,
        }
    }

    /// Gives as much of a row as Le allows. What follows is pending, and nothing else.
    pub fn start(&mut self, row: &[u8], le: Le, reply: &mut Reply)
        requires row { length row.now ≤ LARGEST }
        ensures { IsCut row.now le reply.new self.new }
    {
        if row.len() <= usize::from(le.octets()) {
            self.forget();
            put(row, StatusWord::DONE, reply);
        } else {
            self.keep(row);
            self.more(le, reply);
        }
    }

    /// Gives as much of what is pending as Le allows. What follows is pending.
    pub fn more(&mut self, le: Le, reply: &mut Reply)
        requires some { self.old ≢ [] }
        ensures { IsCut self.old le reply.new self.new }
    {
        let left = &self.octets.as_slice()[self.given..];
        let count = left.len().min(usize::from(le.octets()));
        let (now, rest) = left.split_at(count);
        put(now, word_for(rest), reply);
        self.given += count;
    }

    /// Whether nothing is pending.
    pub fn is_empty(&self) -> bool
        ensures { result ≡ (length self.now == 0) }
    {
        self.octets.as_slice()[self.given..].is_empty()
    }

    /// Drops what is pending.
    pub fn forget(&mut self)
        ensures { self.new ≡ [] }
    {
        self.octets.clear();
        self.given = 0;
    }

    // A row is pending as a whole. It isn't inlined, since a row that goes in one answer isn't kept.
    #[inline(never)]
    fn keep(&mut self, row: &[u8])
        requires { length row.now ≤ LARGEST }
        ensures { self.new ≡ row.now }
    {
        self.octets.clear();
        let fits = self.octets.try_extend_from_slice(row).is_ok();
        prove!(fits);
        self.given = 0;
    }
}

// Answers octets and a word.
fn put(octets: &[u8], word: StatusWord, reply: &mut Reply)
    requires { length octets.now ≤ 256 }
    ensures { reply.new ≡ record { body = octets.now; word = word } }
{
    reply.body.clear();
    let fits = reply.body.try_extend_from_slice(octets).is_ok();
    prove!(fits);
    reply.word = word;
}

// Done where nothing is left, or else how much is.
fn word_for(rest: &[u8]) -> StatusWord
    ensures { result ≡ rest_word rest.now }
{
    match rest.len() {
        0 => StatusWord::DONE,
        count @ 1..=255 => StatusWord {
            word: 0x6100 + count as u16,
        },
        _ => StatusWord { word: 0x6100 },
    }
}
