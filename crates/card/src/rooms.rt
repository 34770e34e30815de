// The large parts of a card, each in memory of its own, so that a card is a few octets to move.
ghost use Rattle.std.specs.Prelude.{◌≡◌, [], ◌∷◌, None, length, IfOk};
ghost use Rattle.scql_model.specs.Database.{Database};
ghost use Rattle.scql_model.specs.Machine as machine;
ghost use Rattle.card.specs.Sessions.{sessions_of};

use crate::found::Found;
use crate::session::Session;
use apdu_chain::Chains;
use eeprom::Heap;
use scql_base::{Command, Operation, Row};
use std::alloc::AllocError;

/// Room for what an engine keeps of its channels, and for what a reading command finds.
#[derive(Drop)]
pub(crate) struct Rooms {
    pub sessions: Box<[Option<Session>; 4], Heap>,
    pub chains: Box<Chains, Heap>,
    pub found: Box<Found, Heap>,
    pub row: Box<Row, Heap>,
}

impl Rooms {
    /// Channel 0 is open, without a user, and nothing was found yet.
    pub(crate) fn new(alloc: Heap) -> Result<Rooms, AllocError>
        ensures four { IfOk result (λ rooms. (length rooms.sessions.value ≡ 4) × (length rooms.chains.value ≡ 4)) }
        ensures starts { IfOk result (λ rooms. (db : Database) → sessions_of rooms.sessions.value rooms.chains.value ≡ (machine.start db).sessions) }
        ensures found { IfOk result (λ rooms. rooms.found.value ≡ record { last = None; scan = None }) }
    {
        Ok(Rooms {
            sessions: room_for_sessions(alloc)?,
            chains: room_for_chains(alloc)?,
            found: room_for_what_is_found(alloc)?,
            row: room_for_a_row(alloc)?,
        })
    }
}

// None of these is inlined: what each puts into its memory stands on the stack once, and for as long as that takes.
#[inline(never)]
fn room_for_sessions(alloc: Heap) -> Result<Box<[Option<Session>; 4], Heap>, AllocError>
    ensures four { IfOk result (λ sessions. length sessions.value ≡ 4) }
    ensures starts { IfOk result (λ sessions. (db : Database) → sessions_of sessions.value (None ∷ None ∷ None ∷ None ∷ []) ≡ (machine.start db).sessions) }
{
    Ok(Box::new(alloc, first_sessions())?)
}

#[inline(never)]
fn room_for_chains(alloc: Heap) -> Result<Box<Chains, Heap>, AllocError>
    ensures { IfOk result (λ chains. chains.value ≡ None ∷ None ∷ None ∷ None ∷ []) }
{
    Ok(Box::new(alloc, Chains::new())?)
}

#[inline(never)]
fn room_for_what_is_found(alloc: Heap) -> Result<Box<Found, Heap>, AllocError>
    ensures { IfOk result (λ found. found.value ≡ record { last = None; scan = None }) }
{
    Ok(Box::new(alloc, Found::new())?)
}

#[inline(never)]
fn room_for_a_row(alloc: Heap) -> Result<Box<Row, Heap>, AllocError> {
    Ok(Box::new(alloc, Row::new())?)
}

/// Room for the command that is answered.
#[inline(never)]
pub(crate) fn room_for_a_command(alloc: Heap) -> Result<Box<Command, Heap>, AllocError> {
    let command = Command {
        channel: 0,
        operation: Operation::FetchNext,
        le: None,
    };
    Ok(Box::new(alloc, command)?)
}

/// Channel 0 alone is open, without a user.
pub(crate) fn first_sessions() -> [Option<Session>; 4]
    ensures { (db : Database) → sessions_of result (None ∷ None ∷ None ∷ None ∷ []) ≡ (machine.start db).sessions }
{
    [Some(Session::new(None)), None, None, None]
}
