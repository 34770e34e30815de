// Answers to commands (ISO/IEC 7816-4, response APDU).
use arrayvec::ArrayVec;
use scql_base::StatusWord;
use std::marker::Model;

/// Data octets, and a status word.
#[derive(Drop)]
pub struct Reply {
    pub body: ArrayVec<u8, 256>,
    pub word: StatusWord,
}

impl Model for Reply {
    ghost use Rattle.scql_model.specs.Replies as model;

    ghost Value = { model.Reply };

    ghost view = { λ reply. record { body = reply.body.items; word = reply.word } };
}
