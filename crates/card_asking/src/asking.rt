// A command is sent to a card, and its answer heard.
ghost use Rattle.std.specs.Prelude.{◌≡◌, ◌<◌, IsTrue, true};
ghost use Rattle.scql_model.specs.Machine.{Machine};
ghost use Rattle.scql_model.specs.Spelling as spelling;
ghost use Rattle.scql_model.specs.Step.{step};
ghost use Rattle.script.specs.Commands.{IsSendable};
ghost use Rattle.planner.specs.Meaning.{answer_to};
ghost use Rattle.card_asking.specs.Calls.{AskingLeaves, AsksOver};

use crate::Mute;
use apdu::{CommandApdu, CommandOctets, Reply};
use card_link::{CardLink, Outcome};
use scql_base::{Command, StatusWord};

/// Sends a command, in parts where it needs them, up to the first answer other than 9000. The reply is the last one.
pub fn ask<L: CardLink>(link: &mut L, command: &Command, reply: &mut Reply) -> Result<(), Mute>
    requires live { IsTrue (L.is_live link.old) }
    requires sendable { IsSendable command.now }
    ensures asks { (m : Machine) → L.is_at link.old m → AsksOver L.is_at L.mark L.chip m (answer_to m command.now) result reply.new link.old link.new }
    ensures leaves { AskingLeaves L.is_live L.faults L.mark L.keeps L.goes_on result reply.new link.old link.new }
{
    let last = command.parts() - 1;
    for part in 0..last {
        send_part(link, command, part, reply)?;
        if reply.word.word != StatusWord::DONE.word {
            return Ok(());
        }
    }
    send_part(link, command, last, reply)
}

// Sends a part of a command.
fn send_part<L: CardLink>(
    link: &mut L,
    command: &Command,
    part: u8,
    reply: &mut Reply,
) -> Result<(), Mute>
    requires live { IsTrue (L.is_live link.old) }
    requires fits { spelling.fits command.now ≡ true }
    requires there { part < spelling.part_count command.now }
    ensures asks { (m : Machine) → L.is_at link.old m
        → AsksOver L.is_at L.mark L.chip m (step m (spelling.part_octets command.now part)) result reply.new link.old link.new }
    ensures leaves { AskingLeaves L.is_live L.faults L.mark L.keeps L.goes_on result reply.new link.old link.new }
{
    let mut octets = CommandOctets::new();
    command.write_part(part, &mut octets);
    match link.exchange(&octets, reply) {
        Outcome::Replied => Ok(()),
        Outcome::Mute => Err(Mute {}),
    }
}
