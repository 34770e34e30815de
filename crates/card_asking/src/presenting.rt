// A user is presented on a card.
ghost use Rattle.std.specs.Prelude.{◌≡◌, IsTrue};
ghost use Rattle.scql_base.specs.declared.operation.Operation.TheVariants.{PresentUser};
ghost use Rattle.scql_model.specs.Machine.{Machine};
ghost use Rattle.script.specs.Commands as commands;
ghost use Rattle.card_link.specs.Link.{Holds, LeavesOpen};
ghost use Rattle.card_asking.specs.Calls.{HasGoneOn};
ghost use Rattle.card_asking.specs.Presenting as model;
ghost use Rattle.card_asking.specs.Presenting.{EndsPresenting, PresentsSo};

use crate::ask;
use apdu::Reply;
use arrayvec::ArrayVec;
use card_link::CardLink;
use scql_base::{Command, Copied, Name, Operation, StatusWord};

/// Why a user isn't presented.
#[derive(Clone, Copy, PartialEq, Eq, Debug)]
pub enum Unpresented {
    /// The card refused with this word.
    Refused { word: StatusWord },
    /// The card failed: it answers no more.
    Mute,
}

// PRESENT USER on channel 0.
fn presenting(user: &Name) -> Command
    ensures command { result ≡ commands.asking 0 (PresentUser user.now) }
    ensures sendable { commands.IsSendable result }
{
    let _ = user.octets();
    Command {
        channel: 0,
        operation: Operation::PresentUser { name: user.copy() },
        le: None,
    }
}

/// Presents a user on channel 0. Each word but 9000 is a refusal.
pub fn present<L: CardLink>(link: &mut L, user: &Name) -> Result<(), Unpresented>
    requires live { IsTrue (L.is_live link.old) }
    ensures presents { (m : Machine) → L.is_at link.old m → PresentsSo L.is_at m (model.presented m user.now) result link.new }
    ensures moments { (m : Machine) → L.is_at link.old m → LeavesOpen (Holds (L.mark link.old) m.committed) (L.chip link.old) (L.chip link.new) }
    ensures ends { EndsPresenting L.is_live L.faults result link.old link.new }
    ensures rest { HasGoneOn L.mark L.keeps L.goes_on link.old link.new }
{
    let mut reply = Reply {
        body: ArrayVec::new(),
        word: StatusWord::DONE,
    };
    match ask(link, &presenting(user), &mut reply) {
        Ok(()) if reply.word.word == StatusWord::DONE.word => Ok(()),
        Ok(()) => Err(Unpresented::Refused { word: reply.word }),
        Err(_) => Err(Unpresented::Mute),
    }
}
