// What a session reads with: its cursor, and what is left of an answer.
ghost use Rattle.std.specs.Prelude.{◌≡◌, ◌≤◌, None, [], Some, length};
ghost use Rattle.scql_base.specs.declared.cursor.Cursor as cursors;
ghost use Rattle.scql_base.specs.declared.row.TheConstants.Row.{LARGEST};
ghost use Rattle.scql_model.specs.Machine.{no_reading};
ghost use Rattle.scql_model.specs.Moves as moves;

use apdu::Reply;
use apdu_chain::{Le, Pending};
use scql_base::{Cursor, Place, StatusWord};
use std::marker::Model;

/// The cursor of a session, if it has one, and the octets that are left of an answer.
#[derive(Drop)]
pub struct Reading {
    pub cursor: Option<Cursor>,
    pub pending: Pending,
}

impl Model for Reading {
    ghost use Rattle.scql_model.specs.Machine as machine;

    ghost Value = { machine.Reading };

    ghost view = { λ r. record { cursor = r.cursor; pending = r.pending } };
}

impl Reading {
    /// Nothing is read.
    pub fn new() -> Reading
        ensures { result ≡ no_reading }
    {
        Reading {
            cursor: None,
            pending: Pending::new(),
        }
    }

    /// Nothing is pending any more.
    pub fn drop_pending(&mut self)
        ensures { self.new ≡ record self.old { pending = [] } }
    {
        self.pending.forget();
    }

    // The cursor stands at a place, and nothing is pending.
    pub(crate) fn stand_at(&mut self, place: Place, word: StatusWord, reply: &mut Reply)
        ensures { (c : cursors.Cursor) → self.old.cursor ≡ Some c → record { reply = reply.new; after = self.new } ≡ moves.moved_to place c word }
    {
        self.set_place(place);
        self.pending.forget();
        reply.body.clear();
        reply.word = word;
    }

    // The cursor stands at a place, and octets are given as far as Le allows. The rest is pending.
    pub(crate) fn give(&mut self, place: Place, le: Le, octets: &[u8], reply: &mut Reply)
        requires { length octets.now ≤ LARGEST }
        ensures { (c : cursors.Cursor) → self.old.cursor ≡ Some c → record { reply = reply.new; after = self.new } ≡ moves.giving place c le octets.now }
    {
        self.set_place(place);
        self.pending.start(octets, le, reply);
    }

    // The cursor, if there is one, stands at a place.
    fn set_place(&mut self, place: Place)
        ensures { (c : cursors.Cursor) → self.old.cursor ≡ Some c → self.new ≡ record self.old { cursor = Some (record c { place = place }) } }
    {
        if let Some(cursor) = &mut self.cursor {
            cursor.place = place;
        }
    }
}
