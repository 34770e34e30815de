// What carries out commands: the committed database and the working one, the open transaction, and the sessions.
ghost use Rattle.std.specs.Prelude.{◌≡◌, IfOk, is_some};
ghost use Rattle.scql_base.specs.Words.{done};
ghost use Rattle.scql_model.specs.Machine as machine;
ghost use Rattle.scql_model.specs.Replies.{said};
ghost use Rattle.scql_model.specs.Sessions as model;
ghost use Rattle.scql_model.specs.Transactions.{own_transaction};
ghost use Rattle.scql_model.specs.ValidMachine.{IsValidMachine};

mod changing;
mod channels;
mod reading;
mod stepping;
mod transacting;
mod users;

use crate::channel::Channel;
use crate::sessions::Sessions;
use apdu::Reply;
use eeprom::Heap;
use plain_database::{PlainDatabase, ValidDatabase};
use scql_base::{Actor, PresentedUser, StatusWord};
use std::alloc::AllocError;
use std::marker::Model;

/// A machine on plain lists. The working database stands ready, and counts where a channel has the open transaction.
#[derive(Drop)]
pub(crate) struct Engine {
    committed: PlainDatabase,
    working: PlainDatabase,
    // the channel that has the open transaction
    transaction: Option<u8>,
    sessions: Sessions,
}

impl Model for Engine {
    ghost use Rattle.std.specs.Prelude.{◌≡◌};
    ghost use Rattle.scql_model.specs.Machine as machine;
    ghost use Rattle.plain_machine.specs.Answers.{machine_seen};

    ghost Value = { machine.Machine };

    ghost view = { λ engine. machine_seen engine.committed engine.working engine.transaction engine.sessions };

    ghost invariant = { λ engine. engine.working.cells ≡ engine.committed.cells };
}

impl Engine {
    /// One over a database. Channel 0 is open, without a user.
    pub(crate) fn new(alloc: Heap, database: PlainDatabase) -> Result<Engine, AllocError>
        ensures { IfOk result (λ engine. engine ≡ machine.start database) }
    {
        let working = PlainDatabase::new(alloc, database.cells(), database.limit())?;
        Ok(Engine {
            committed: database,
            working,
            transaction: None,
            sessions: Sessions::new(),
        })
    }

    /// The transaction is undone, and all sessions end.
    pub(crate) fn reset(&mut self)
        ensures { self.new ≡ machine.reset self.old }
    {
        self.transaction = None;
        self.sessions = Sessions::new();
    }

    /// What is committed.
    pub(crate) fn committed(&self) -> &PlainDatabase
        ensures { result.now ≡ self.now.committed }
    {
        &self.committed
    }

    // Whether a channel has the open transaction.
    fn has_transaction(&self, channel: Channel) -> bool
        ensures { result ≡ is_some (own_transaction self.now.transaction channel) }
    {
        match self.transaction {
            Some(own) => own == channel.number(),
            None => false,
        }
    }

    // What a channel reads and changes.
    fn base(&self, channel: Channel) -> &PlainDatabase
        ensures { result.now ≡ machine.base self.now channel }
    {
        if self.has_transaction(channel) {
            &self.working
        } else {
            self.committed()
        }
    }

    // For whom a channel acts.
    fn actor(&self, channel: Channel) -> Actor
        requires { IsValidMachine self.now }
        ensures { result ≡ machine.actor self.now channel }
    {
        match self.sessions.user(channel) {
            Some(user) => actor_of(&self.base(channel).as_valid(), user),
            None => Actor::Public,
        }
    }

    // A command of a channel is done: nothing is pending there any more.
    fn finish(&mut self, channel: Channel, reply: &mut Reply)
        ensures reply { reply.new ≡ said done }
        ensures machine { self.new ≡ model.changing_session model.without_pending self.old channel }
    {
        self.sessions.drop_pending(channel);
        say(reply, StatusWord::DONE);
    }
}

// Answers a word, and no data.
fn say(reply: &mut Reply, word: StatusWord)
    ensures { reply.new ≡ said word }
{
    reply.body.clear();
    reply.word = word;
}

// For whom a session acts that presents a user: the user where proved and still there, else PUBLIC.
fn actor_of(database: &ValidDatabase<'_>, user: PresentedUser) -> Actor
    ensures { result ≡ machine.actor_of database.now user }
{
    if !user.proved {
        return Actor::Public;
    }
    match database.user_stamped(user.stamp) {
        Some(user) => Actor::User {
            stamp: user.stamp,
            profile: user.profile,
        },
        None => Actor::Public,
    }
}
