// The sessions of the four channels, and the parts of their commands.
ghost use Rattle.std.specs.Prelude.{◌≡◌, ◌∷◌, [], Some, None, is_some, map, min, not, option_and_then, option_map, slice_set};
ghost use Rattle.std.specs.List.{find};
ghost use Rattle.scql_base.specs.declared.row.TheConstants.Row.{LARGEST};
ghost use Rattle.scql_model.specs.Changing.{change_of};
ghost use Rattle.scql_model.specs.Database.{IsValid};
ghost use Rattle.scql_model.specs.Form as form;
ghost use Rattle.scql_model.specs.Machine as machine;
ghost use Rattle.scql_model.specs.Moves.{moved};
ghost use Rattle.scql_model.specs.Operations.{operations};
ghost use Rattle.scql_model.specs.Sessions as model;
ghost use Rattle.plain_database.specs.Effects.{EndsAsMeant};
ghost use Rattle.plain_reading.specs.Commands.{command_seen};
ghost use Rattle.plain_machine.specs.Reading.{HasCursorOf, ReadsOnChannel};
ghost use Rattle.plain_machine.specs.Sessions.{Takes, are_open, chain_in, changed_on, left_session, reading_on, session_on, session_seen};

use crate::channel::Channel;
use crate::session::Session;
use apdu::Reply;
use apdu_chain::{Chains, Taken};
use plain_database::{PlainDatabase, ValidDatabase};
use plain_reading::{Reading, ReadingCommand, read};
use scql_base::{Actor, Command, Operation, PresentedUser, StatusWord};
use std::marker::Model;

/// A session for each open channel, and the parts so far of each channel's command.
#[derive(Drop)]
pub(crate) struct Sessions {
    channels: [Option<Session>; 4],
    chains: Chains,
}

impl Model for Sessions {
    ghost use Rattle.std.specs.Prelude.{◌≡◌, List, Option, length};
    ghost use Rattle.scql_model.specs.Machine as machine;
    ghost use Rattle.plain_machine.specs.Sessions.{sessions_of};

    ghost Value = { List (Option machine.Session) };

    ghost view = { λ s. sessions_of s.channels s.chains };

    ghost invariant = { λ s. (length s.channels ≡ 4) × (length s.chains ≡ 4) };
}

impl Sessions {
    /// Channel 0 alone is open, without a user.
    pub(crate) fn new() -> Sessions
        ensures { result ≡ Some machine.new_session ∷ None ∷ None ∷ None ∷ [] }
    {
        Sessions {
            channels: [Some(Session::new(None)), None, None, None],
            chains: Chains::new(),
        }
    }

    /// Takes octets, where a row has at most so many octets, and never more than 1,020. The command that they make whole is read into
    /// a place.
    pub(crate) fn take(&mut self, octets: &[u8], limit: u16, command: &mut Command) -> Taken
        ensures { Takes (form.form_of operations octets.now (are_open self.old) (chain_in self.old) (min limit LARGEST)) self.old self.new result command.new }
    {
        let channels = self.open_channels();
        self.chains.take(octets, channels, limit, command)
    }

    /// Whether a channel is open.
    pub(crate) fn is_open(&self, channel: Channel) -> bool
        ensures { result ≡ is_some (session_on self.now channel) }
    {
        let place = channel.place();
        self.channels[place].is_some()
    }

    /// The least channel that is closed.
    pub(crate) fn least_closed(&self) -> Option<Channel>
        ensures { result ≡ find (λ channel. not (is_some (session_on self.now channel))) (1 ∷ 2 ∷ 3 ∷ []) }
    {
        let (first, second, third) = (Channel::new(1), Channel::new(2), Channel::new(3));
        if !self.is_open(first) {
            Some(first)
        } else if !self.is_open(second) {
            Some(second)
        } else if !self.is_open(third) {
            Some(third)
        } else {
            None
        }
    }

    /// The user of a channel.
    pub(crate) fn user(&self, channel: Channel) -> Option<PresentedUser>
        ensures { result ≡ option_and_then (λ s. s.user) (session_on self.now channel) }
    {
        let place = channel.place();
        match &self.channels[place] {
            Some(session) => session.user,
            None => None,
        }
    }

    /// Carries out a reading command on an open channel, or refuses it.
    pub(crate) fn read(
        &mut self,
        channel: Channel,
        database: &ValidDatabase<'_>,
        actor: Actor,
        command: &ReadingCommand<'_>,
        reply: &mut Reply,
    ) -> Result<(), StatusWord>
        requires { HasCursorOf database.now self.old channel }
        ensures { ReadsOnChannel (λ sessions. reading_on sessions channel) (λ reading. changed_on (model.reading_so reading) self.old channel) self.old self.new reply.new result
            (moved database.now actor (reading_on self.old channel) (command_seen command.now)) }
    {
        let place = channel.place();
        match &mut self.channels[place] {
            Some(session) => read(database, actor, &mut session.reading, command, reply),
            None => unreachable!(),
        }
    }

    /// Carries out a changing command of an open channel on its database, or refuses it.
    pub(crate) fn change(
        &self,
        channel: Channel,
        database: &mut PlainDatabase,
        actor: Actor,
        operation: &Operation,
    ) -> Result<(), StatusWord>
        requires valid { IsValid database.old }
        requires reads { HasCursorOf database.old self.now channel }
        ensures ends { EndsAsMeant database.old database.new result (change_of database.old actor (reading_on self.now channel).cursor operation.now) }
        ensures cells { database.new.cells ≡ database.old.cells }
    {
        let place = channel.place();
        match &self.channels[place] {
            Some(session) => database.change(actor, &session.reading.cursor, operation),
            None => unreachable!(),
        }
    }

    /// Nothing is pending on a channel any more.
    pub(crate) fn drop_pending(&mut self, channel: Channel)
        ensures { self.new ≡ changed_on model.without_pending self.old channel }
    {
        let place = channel.place();
        if let Some(session) = &mut self.channels[place] {
            session.reading.drop_pending();
        }
    }

    /// A channel has no cursor any more, nor is anything pending on it.
    pub(crate) fn drop_cursor(&mut self, channel: Channel)
        ensures { self.new ≡ changed_on model.without_cursor self.old channel }
    {
        let place = channel.place();
        if let Some(session) = &mut self.channels[place] {
            session.reading = Reading::new();
        }
    }

    /// The user of a channel has shown the secret.
    pub(crate) fn prove(&mut self, channel: Channel)
        ensures { self.new ≡ changed_on model.proving self.old channel }
    {
        let place = channel.place();
        if let Some(session) = &mut self.channels[place] {
            session.prove();
        }
    }

    /// A channel is open anew, for a user or for nobody.
    pub(crate) fn open(&mut self, channel: Channel, user: Option<PresentedUser>)
        ensures { self.new ≡ slice_set self.old channel (Some (machine.session_for user)) }
    {
        self.set(channel, Some(Session::new(user)));
    }

    /// A channel is closed.
    pub(crate) fn close(&mut self, channel: Channel)
        ensures { self.new ≡ slice_set self.old channel None }
    {
        self.set(channel, None);
    }

    /// Each session that presents the user of a stamp has neither user nor cursor any more.
    pub(crate) fn leave(&mut self, stamp: u32)
        ensures { self.new ≡ map (option_map (model.left_by stamp)) self.old }
    {
        leave_each(&mut self.channels, stamp);
    }

    // A channel has this session, or none, and no part of a command.
    fn set(&mut self, channel: Channel, session: Option<Session>)
        ensures { self.new ≡ slice_set self.old channel (option_map (session_seen None) session) }
    {
        let place = channel.place();
        self.chains.forget(channel.number());
        self.channels[place] = session;
    }

    // Which channels are open.
    fn open_channels(&self) -> [bool; 4]
        ensures { result ≡ are_open self.now }
    {
        let [first, second, third, fourth] = &self.channels;
        [
            first.is_some(),
            second.is_some(),
            third.is_some(),
            fourth.is_some(),
        ]
    }
}

// Each of these sessions that presents the user of a stamp has neither user nor cursor any more.
fn leave_each(sessions: &mut [Option<Session>], stamp: u32)
    ensures { sessions.new ≡ map (option_map (left_session stamp)) sessions.old }
{
    for session in sessions.iter_mut() {
        if let Some(session) = session {
            session.leave(stamp);
        }
    }
}
