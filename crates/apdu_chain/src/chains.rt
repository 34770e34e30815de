// Commands that come in parts: a chain for each channel (ISO/IEC 7816-4, command chaining).
ghost use Rattle.std.specs.Prelude.{◌≡◌, ◌≢◌, ◌≤◌, ◌<◌, ◌++◌, ℕ, [], ◌∷◌, Some, None, true, false, IfSome, IfNone, length, min, slice_set};
ghost use Rattle.std.specs.List.{concat};
ghost use Rattle.scql_base.specs.declared.row.TheConstants.Row.{LARGEST};
ghost use Rattle.scql_model.specs.Form as form;
ghost use Rattle.scql_model.specs.Form.{parts_of};
ghost use Rattle.scql_model.specs.Operations as table;
ghost use Rattle.apdu.specs.Reading.{command_of, seen};
ghost use Rattle.apdu_chain.specs.Chaining.{Takes, chain_on, chains_after, going_on, on_channel, taken_of};

use crate::chain::Chain;
use apdu::{Apdu, Refusal, comes_in_parts};
use scql_base::{Command, OperationKind, StatusWord};
use std::marker::Model;

/// The parts so far of each channel's command.
#[derive(Drop)]
pub struct Chains {
    chains: [Option<Chain>; 4],
}

impl Model for Chains {
    ghost use Rattle.std.specs.Prelude.{◌≡◌, List, Option, length};
    ghost use Rattle.scql_model.specs.Machine as machine;

    ghost Value = { List (Option machine.Chain) };

    ghost view = { λ c. c.chains };

    ghost invariant = { λ c. length c.chains ≡ 4 };
}

/// What octets are, with the parts before them: what makes a command whole, what is refused, or a part that is kept.
#[derive(Drop)]
pub enum Taken {
    Whole,
    Refused { word: StatusWord },
    Kept,
}

// An APDU that was read of octets: it is on a channel of the card, and has at most 255 octets of data.
#[derive(Drop)]
struct Received<'a> {
    apdu: Apdu<'a>,
    ghost channel: { apdu.channel < 4 },
    ghost short: { length apdu.body.now ≤ 255 },
}

impl Chains {
    /// No channel has a part of a command.
    pub fn new() -> Chains
        ensures { result ≡ None ∷ None ∷ None ∷ None ∷ [] }
    {
        Chains {
            chains: [None, None, None, None],
        }
    }

    /// Takes octets, where these channels are open and a row has at most so many octets, and never more than 1,020. The command
    /// that they make whole is read into a place. Only the chain of the command's own channel changes.
    pub fn take(
        &mut self,
        octets: &[u8],
        channels: [bool; 4],
        limit: u16,
        command: &mut Command,
    ) -> Taken
        ensures { Takes (form.form_of table.operations octets.now channels (chain_on self.old) (min limit LARGEST)) self.old self.new result command.new }
    {
        match Apdu::read(octets, channels) {
            Err(Refusal::Nowhere { word }) => Taken::Refused { word },
            Err(Refusal::On { channel, word }) => {
                self.forget(channel);
                Taken::Refused { word }
            }
            Ok(apdu) if apdu.is_part => self.keep(&Received { apdu }),
            Ok(apdu) => match self.read(&Received { apdu }, limit, command) {
                Ok(()) => Taken::Whole,
                Err(word) => Taken::Refused { word },
            },
        }
    }

    /// Drops the parts of a channel's command.
    pub fn forget(&mut self, channel: u8)
        requires { channel < 4 }
        ensures { self.new ≡ slice_set self.old channel None }
    {
        let chain = &mut self.chains[usize::from(channel)];
        if chain.is_some() {
            *chain = None;
        }
    }

    /// Drops the parts of all channels' commands.
    pub fn clear(&mut self)
        ensures { self.new ≡ None ∷ None ∷ None ∷ None ∷ [] }
    {
        *self = Chains::new();
    }

    // A part goes on with the chain of its channel, or begins a new one. It isn't inlined, so that a command that comes whole has no
    // place for a chain.
    #[inline(never)]
    fn keep(&mut self, received: &Received<'_>) -> Taken
        requires { received.now.apdu.is_part ≡ true }
        ensures taken { (limit : ℕ) → result ≡ taken_of (on_channel self.old received.now.apdu limit) }
        ensures part { result ≢ Taken.Whole }
        ensures chains { (limit : ℕ) → self.new ≡ chains_after self.old (on_channel self.old received.now.apdu limit) }
    {
        let apdu = &received.apdu;
        let begun = self.end(received);
        if !comes_in_parts(apdu.kind) {
            return Taken::Refused {
                word: StatusWord::CHAINING_NOT_SUPPORTED,
            };
        }
        let mut chain = begun.unwrap_or(Chain::new(apdu.kind));
        if chain.len() == 4 {
            return Taken::Refused {
                word: StatusWord::WRONG_LENGTH,
            };
        }
        chain.push(apdu.body);
        self.chains[usize::from(apdu.channel)] = Some(chain);
        Taken::Kept
    }

    // What isn't a part makes a command whole, with the parts before it: the command is read into a place. The chain of its channel ends.
    fn read(
        &mut self,
        received: &Received<'_>,
        limit: u16,
        command: &mut Command,
    ) -> Result<(), StatusWord>
        ensures command { seen (λ _. command.new) result ≡ command_of received.now.apdu (min limit LARGEST) (concat (parts_of received.now.apdu.kind (chain_on self.old received.now.apdu.channel)) ++ received.now.apdu.body.now) }
        ensures ended { self.new ≡ slice_set self.old received.now.apdu.channel None }
    {
        let apdu = &received.apdu;
        let read = match &self.chains[usize::from(apdu.channel)] {
            Some(chain) if chain.goes_on_with(apdu.kind) => {
                read_joined(chain, received, limit, command)
            }
            _ => apdu.read_into(apdu.body, limit, command),
        };
        self.forget(apdu.channel);
        read
    }

    // Ends the chain of a channel. It is given where a command of this operation goes on with it.
    fn end(&mut self, received: &Received<'_>) -> Option<Chain>
        ensures chain { result ≡ going_on received.now.apdu.kind (chain_on self.old received.now.apdu.channel) }
        ensures ended { self.new ≡ slice_set self.old received.now.apdu.channel None }
    {
        let Apdu { channel, kind, .. } = received.apdu;
        match self.chains[usize::from(channel)].take() {
            Some(chain) if chain.goes_on_with(kind) => Some(chain),
            _ => None,
        }
    }
}

// Reads the command of the parts so far and an APDU's own data field into a place. It isn't inlined, so that a command that comes whole
// has no place for parts.
#[inline(never)]
fn read_joined(
    chain: &Chain,
    received: &Received<'_>,
    limit: u16,
    command: &mut Command,
) -> Result<(), StatusWord>
    ensures { seen (λ _. command.new) result ≡ command_of received.now.apdu (min limit LARGEST) (concat chain.now.parts ++ received.now.apdu.body.now) }
{
    let apdu = &received.apdu;
    let octets = chain.joined(apdu.body);
    apdu.read_into(octets.as_slice(), limit, command)
}
