// A text for a person, put together in one buffer.
ghost use Rattle.std.specs.Prelude.{◌≡◌, ◌≤◌, [], ◌++◌, length, take};
ghost use Rattle.std.specs.Fmt.{decimal};
ghost use Rattle.guide.specs.declared.message.TheConstants.Message.{LONGEST};

use arrayvec::ArrayVec;
use itoa::Buffer;
use person::put;
use std::marker::Model;

/// A text for a person. What finds no room in it is left out.
#[derive(Drop)]
pub struct Message {
    octets: ArrayVec<u8, { Message::LONGEST }>,
}

impl Model for Message {
    ghost use Rattle.std.specs.Prelude.{List, ℕ, length, ◌≤◌};
    ghost use Rattle.guide.specs.declared.message.TheConstants.Message.{LONGEST};

    ghost Value = { List ℕ };

    ghost view = { λ m. m.octets.items };

    ghost invariant = { λ m. length m.octets.items ≤ LONGEST };
}

impl Message {
    /// How many octets a text has at most: a line, a mark below it, and what is said there.
    pub const LONGEST: usize = 2600;

    /// No text.
    pub fn new() -> Message
        ensures { result ≡ [] }
    {
        Message {
            octets: ArrayVec::new(),
        }
    }

    /// Puts octets behind the text, as many as there is room for.
    pub fn put(&mut self, octets: &[u8])
        ensures { self.new ≡ take LONGEST (self.old ++ octets.now) }
    {
        let room = Message::LONGEST - self.octets.len();
        let fitting = &octets[..octets.len().min(room)];
        put(&mut self.octets, fitting);
    }

    /// Puts a number behind the text, as far as there is room for it.
    pub fn put_number(&mut self, number: usize)
        ensures { self.new ≡ take LONGEST (self.old ++ decimal number) }
    {
        self.put(Buffer::new().format(number).as_bytes());
    }

    /// Leaves no text.
    pub fn clear(&mut self)
        ensures { self.new ≡ [] }
    {
        self.octets.clear();
    }

    /// How many octets it has.
    pub fn len(&self) -> usize
        ensures { result ≡ length self.now }
    {
        self.octets.len()
    }

    /// Its octets.
    pub fn as_slice(&self) -> &[u8]
        ensures { result.now ≡ self.now }
    {
        self.octets.as_slice()
    }
}
