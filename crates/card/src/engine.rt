// The engine of a card: its store, its sessions, and what carries out a command.
ghost use Rattle.std.specs.Prelude.{◌≡◌, ◌==◌, ℕ, List, slice_get, ◌<◌, ◌*◌, [], Some, None, true, false, map, is_some, length, option_map, IfSome, IfOk, OnOk, if◌then◌else◌};
ghost use Rattle.eeprom.specs.Chip.{Chip, Becomes};
ghost use Rattle.eeprom.specs.Fault.{Counts, each_error};
ghost use Rattle.eeprom.specs.Frame.{Reads};
ghost use Rattle.eeprom.specs.StoreOf.{cell_size};
ghost use Rattle.scql_base.specs.declared.operation.Operation.TheVariants as asks;
ghost use Rattle.scql_model.specs.Creating.{actor_stamp};
ghost use Rattle.scql_model.specs.Machine as machine;
ghost use Rattle.scql_model.specs.Step as stepping;
ghost use Rattle.scql_model.specs.Database.{Database};
ghost use Rattle.card.specs.Card.{Kept, FindsAgain, IsReady, IsAt, StandsOver};
ghost use Rattle.card.specs.CarryingOut.{CarriesOut, CommitsInTurn, IsReset, MayCarryOut, ReadsBy, StandsIdle};
ghost use Rattle.card.specs.Answering.{changing_session, settled, with_session, with_session_for};
ghost use Rattle.card.specs.Changing.{gone_after};
ghost use Rattle.card.specs.Changing as changing;
ghost use Rattle.card.specs.Counting.{counts_of};
ghost use Rattle.card.specs.ReadCosts.{ReadsAsked, ReadsFor};
ghost use Rattle.card.specs.Reading as reading;
ghost use Rattle.card.specs.Acting.{acting};
ghost use Rattle.card.specs.Sessions.{cursor_on, proved_user, session_on, session_seen, sessions_of};
ghost use Rattle.scql_model.specs.Bound.{octets_bound, octets_carried_out, octets_changed, or_nothing};
ghost use Rattle.scql_model.specs.Accepting as accepting;
ghost use Rattle.scql_model.specs.Sessions.{without_pending};
ghost use Rattle.scql_model.specs.Transactions.{for_others};
ghost use Rattle.card.specs.Waiting.{keeps_waiting, side_of};
ghost use Rattle.cursor.specs.Costs.{RisesBetween};
ghost use Rattle.db_read.specs.Scan.{IsRightFor};
ghost use Rattle.db_read.specs.Searched.{user_cells};
ghost use Rattle.record_table.specs.Making.{IsHeld};
ghost use Rattle.scql_model.specs.Operations.{kind_of};
ghost use Rattle.std.specs.Option.{option_flatten};

mod channels;
mod deleting;
mod transacting;
mod verifying;

use crate::changing::{actor_of, change, change_within, changes_rows};
use crate::channel::Channel;
use crate::counting::count_records;
use crate::engine::channels::channel_meant;
use crate::found::{ChannelActor, Found};
use crate::reading::{is_reading, read};
use crate::reply::without_body;
use crate::rooms::{Rooms, first_sessions};
use crate::session::Session;
use apdu::Reply;
use apdu_chain::{Chains, Taken};
use db_access::present;
use db_read::Reader;
use eeprom::{Eeprom, EepromFault, Heap};
use row_table::Tables;
use scql_base::{Actor, Command, Copied, Name, Operation, PresentedUser, Row, StatusWord};
use std::marker::Model;

/// What a card keeps in memory, and carries out commands with.
#[derive(Drop)]
pub(crate) struct Engine {
    tables: Tables,
    sessions: Box<[Option<Session>; 4], Heap>,
    chains: Box<Chains, Heap>,
    // the channel that has the open transaction
    transaction: Option<u8>,
    found: Box<Found, Heap>,
    live: bool,
    // a place for the row that a reading command gives
    row: Box<Row, Heap>,
}

impl Model for Engine {
    ghost use Rattle.std.specs.Prelude.{◌≡◌, length};
    ghost use Rattle.card.specs.Card.{Kept};
    ghost use Rattle.card.specs.Sessions.{sessions_of};

    ghost Value = { Kept };

    ghost view = { λ engine. record { store = engine.tables.store; index = engine.tables.index; sessions = sessions_of engine.sessions.value engine.chains.value; transaction = engine.transaction; found = engine.found.value; live = engine.live } };

    ghost invariant = { λ engine. (length engine.sessions.value ≡ 4) × (length engine.chains.value ≡ 4) };
}

impl Engine {
    /// One over tables that were opened, in these rooms. Channel 0 is open, without a user.
    pub(crate) fn new(tables: Tables, rooms: Rooms) -> Engine
        requires four { (length rooms.sessions.value ≡ 4) × (length rooms.chains.value ≡ 4) }
        requires starts { (db : Database) → sessions_of rooms.sessions.value rooms.chains.value ≡ (machine.start db).sessions }
        requires found { rooms.found.value ≡ record { last = None; scan = None } }
        ensures kept { result ≡ record { store = tables.store; index = tables.index; sessions = result.sessions; transaction = None; found = record { last = None; scan = None }; live = true } }
        ensures starts { (db : Database) → result.sessions ≡ (machine.start db).sessions }
    {
        Engine {
            tables,
            sessions: rooms.sessions,
            chains: rooms.chains,
            transaction: None,
            found: rooms.found,
            live: true,
            row: rooms.row,
        }
    }

    /// Whether it answers: until an answer was mute.
    pub(crate) fn live(&self) -> bool
        ensures { result ≡ self.now.live }
    {
        self.live
    }

    /// It answers no more.
    pub(crate) fn fall_silent(&mut self)
        ensures { self.new ≡ record self.old { live = false } }
    {
        self.live = false;
    }

    /// Ends all sessions, and undoes a transaction that is open. Channel 0 is then open, without a user.
    pub(crate) fn reset(&mut self)
        requires ready { (chip : Chip) × IsReady self.old chip }
        ensures { IsReset self.old self.new }
    {
        if self.transaction.is_some() {
            self.undo();
        }
        *self.sessions = first_sessions();
        self.chains.clear();
        self.found.forget();
    }

    /// How many records of each kind are committed. Their kinds are kept in memory, so that nothing is read.
    pub(crate) fn counts(&self) -> crate::Counts
        ensures { (chip : Chip) (m : machine.Machine) → IsReady self.now chip → IsAt self.now chip m → result ≡ counts_of m.committed }
    {
        count_records(&self.tables.store)
    }

    /// The word that a command is answered with. The body of the reply is written. The command is read into a place.
    pub(crate) fn word_of<B: Eeprom>(
        &mut self,
        bench: &mut B,
        octets: &[u8],
        command: &mut Command,
        reply: &mut Reply,
    ) -> Result<StatusWord, EepromFault>
        requires ready { IsReady self.old (B.chip bench.old) }
        ensures carries { CarriesOut B.chip B.faults IsReady (λ m. stepping.step m octets.now) (λ m. octets_bound m octets.now) reply.new.body bench.old bench.new self.old self.new result }
        ensures lowered { CommitsInTurn B.chip (λ m. stepping.step m octets.now) bench.old bench.new self.old result }
        ensures octets_read { ReadsBy B.chip B.octets_read (λ m. ReadsAsked m octets.now) bench.old bench.new self.old result }
    {
        without_body(reply);
        let channels = self.open_channels();
        match self
            .chains
            .take(octets, channels, self.tables.store.row_limit(), command)
        {
            Taken::Refused { word } => Ok(word),
            Taken::Kept => {
                self.drop_pending(channel_named(octets));
                // As behind any command that doesn't read.
                self.found.forget();
                Ok(StatusWord::DONE)
            }
            Taken::Whole => self.carry_out(bench, command, reply),
        }
    }

    fn carry_out<B: Eeprom>(
        &mut self,
        bench: &mut B,
        command: &Command,
        reply: &mut Reply,
    ) -> Result<StatusWord, EepromFault>
        requires { MayCarryOut self.old (B.chip bench.old) command.now }
        ensures carries { CarriesOut B.chip B.faults IsReady (λ m. stepping.answered m (stepping.carried_out m command.now)) (λ m. or_nothing (octets_carried_out m command.now)) reply.new.body bench.old bench.new self.old self.new result }
        // A second database is committed by VERIFY alone. Then there was a moment at which a power loss may leave the first.
        ensures lowered { CommitsInTurn B.chip (λ m. stepping.answered m (stepping.carried_out m command.now)) bench.old bench.new self.old result }
        ensures octets_read { ReadsBy B.chip B.octets_read (λ m. ReadsFor m command.now) bench.old bench.new self.old result }
    {
        if is_reading(&command.operation) {
            return self.read(bench, command, reply);
        }
        let word = self.carry_out_otherwise(bench, command, reply)?;
        if !changes_rows(&command.operation) {
            // Who acts, what is granted and the tables may be others now.
            self.found.forget();
        }
        Ok(word)
    }

    // Carries out a command that doesn't read.
    fn carry_out_otherwise<B: Eeprom>(
        &mut self,
        bench: &mut B,
        command: &Command,
        reply: &mut Reply,
    ) -> Result<StatusWord, EepromFault>
        requires asked { MayCarryOut self.old (B.chip bench.old) command.now }
        requires other { reading.is_reading (kind_of command.now.operation) ≡ false }
        ensures carries { CarriesOut B.chip B.faults StandsOver (λ m. stepping.answered m (stepping.carried_out m command.now)) (λ m. or_nothing (octets_carried_out m command.now)) reply.new.body bench.old bench.new self.old self.new result }
        // A second database is committed by VERIFY alone. Then there was a moment at which a power loss may leave the first.
        ensures lowered { CommitsInTurn B.chip (λ m. stepping.answered m (stepping.carried_out m command.now)) bench.old bench.new self.old result }
        // Rows are no part of what was found.
        ensures found { changing.changes_rows (kind_of command.now.operation) ≡ true → OnOk result (FindsAgain self.new (B.chip bench.new)) }
    {
        without_body(reply);
        if self.keeps_waiting(command) {
            return Ok(StatusWord::CONDITIONS_NOT_SATISFIED);
        }
        let channel = Channel {
            number: command.channel,
        };
        match &command.operation {
            Operation::Begin => Ok(self.begin(channel)),
            Operation::Commit => self.commit(bench, channel),
            Operation::Rollback => Ok(self.roll_back(channel)),
            Operation::PresentUser { name } => self.present_user(bench, channel, name.copy()),
            Operation::OpenChannel { number } => {
                Ok(self.open_channel(channel, Channel { number: *number }, reply))
            }
            Operation::CloseChannel { number } => {
                let number = channel_meant(channel, Channel { number: *number });
                Ok(self.close_channel(channel, number))
            }
            Operation::Verify { secret } => self.verify(bench, channel, secret.as_slice()),
            Operation::DeleteUser { name } => self.delete_user(bench, command, name.copy()),
            _ => self.change(bench, command, &mut None),
        }
    }

    // Carries a reading command out on the session of its channel.
    fn read<B: Eeprom>(
        &mut self,
        bench: &mut B,
        command: &Command,
        reply: &mut Reply,
    ) -> Result<StatusWord, EepromFault>
        requires asked { MayCarryOut self.old (B.chip bench.old) command.now }
        requires reads { reading.is_reading (kind_of command.now.operation) ≡ true }
        ensures carries { CarriesOut B.chip B.faults IsReady (λ m. stepping.answered m (stepping.carried_out m command.now)) (λ m. or_nothing (octets_carried_out m command.now)) reply.new.body bench.old bench.new self.old self.new result }
        ensures octets_read { ReadsBy B.chip B.octets_read (λ m. ReadsFor m command.now) bench.old bench.new self.old result }
    {
        let channel = Channel {
            number: command.channel,
        };
        let actor = self.actor_reading(bench, channel)?;
        let side = self.side(channel);
        let Some(session) = &mut self.sessions[usize::from(channel.number)] else {
            unreachable!();
        };
        let mut reader = Reader {
            store: &self.tables.store,
            index: &self.tables.index,
            bench,
            side,
        };
        let scan = &mut self.found.scan;
        let word = read(
            &mut reader,
            session,
            actor,
            command,
            reply,
            &mut *self.row,
            scan,
        )?;
        self.found.last = Some(ChannelActor {
            channel: channel.number,
            actor,
        });
        Ok(word)
    }

    // Who acts on a channel that reads. Where another channel read last, or none, what was found for it is let go.
    fn actor_reading<B: Eeprom>(
        &mut self,
        bench: &mut B,
        channel: Channel,
    ) -> Result<Actor, EepromFault>
        requires ready { IsReady self.old (B.chip bench.old) }
        ensures actor { (db : Database) → IsHeld self.old.store (side_of self.old.transaction channel.number) (B.chip bench.old) db
            → IfOk result (λ actor. actor ≡ acting db (proved_user (session_on self.old.sessions channel.number))) }
        ensures right { (db : Database) → IsHeld self.old.store (side_of self.old.transaction channel.number) (B.chip bench.old) db
            → IfOk result (λ actor. IsRightFor db actor self.new.found.scan (cursor_on self.old.sessions channel.number)) }
        ensures kept { self.new ≡ record self.old { found = self.new.found } }
        ensures octets_read { (db : Database) → IsHeld self.old.store (side_of self.old.transaction channel.number) (B.chip bench.old) db
            → IfOk result (λ actor. Becomes (RisesBetween 0 (cell_size * user_cells db.users (actor_stamp actor))) (B.octets_read bench.old) (B.octets_read bench.new)) }
        ensures frame { Reads each_error B.chip B.faults bench.old bench.new result }
    {
        if let Some(actor) = self.found.actor_on(channel.number) {
            return Ok(actor);
        }
        self.found.forget();
        let user = self.proved_user(channel);
        let side = self.side(channel);
        actor_of(&self.tables.store, bench, side, user)
    }

    fn open_channels(&self) -> [bool; 4]
        ensures { result ≡ map is_some self.now.sessions }
    {
        let [first, second, third, fourth] = &*self.sessions;
        [
            first.is_some(),
            second.is_some(),
            third.is_some(),
            fourth.is_some(),
        ]
    }

    fn present_user<B: Eeprom>(
        &mut self,
        bench: &mut B,
        channel: Channel,
        name: Name,
    ) -> Result<StatusWord, EepromFault>
        requires { StandsIdle self.old (B.chip bench.old) }
        ensures { CarriesOut B.chip B.faults StandsOver (λ m. stepping.answered m (stepping.user_presented m channel.number name)) (λ m. 0) [] bench.old bench.new self.old self.new result }
    {
        let user = match present(&self.tables.store, bench, name)? {
            db_access::Presented::Unknown => return Ok(StatusWord::NOT_FOUND),
            db_access::Presented::Public => None,
            db_access::Presented::User { stamp, proved } => Some(PresentedUser { stamp, proved }),
        };
        self.set_user(channel, user);
        Ok(StatusWord::DONE)
    }

    // Changes the database for who acts on a channel, in its transaction or in one of its own. The stamp of a user who is deleted is told.
    fn change<B: Eeprom>(
        &mut self,
        bench: &mut B,
        command: &Command,
        gone: &mut Option<u32>,
    ) -> Result<StatusWord, EepromFault>
        requires asked { MayCarryOut self.old (B.chip bench.old) command.now }
        requires mine { keeps_waiting for_others self.old.transaction command.now.channel ≡ false }
        ensures carries { CarriesOut B.chip B.faults StandsOver (λ m. stepping.answered m (stepping.changed m command.now.channel command.now.operation)) (λ m. or_nothing (octets_changed m command.now.channel command.now.operation)) [] bench.old bench.new self.old self.new result }
        ensures gone { (m : machine.Machine) (name : List ℕ) → IsAt self.old (B.chip bench.old) m → self.old.transaction ≡ None → command.now.operation ≡ asks.DeleteUser name
            → IfOk result (λ word. gone.new ≡ gone_after m.committed name word gone.old) }
        // Rows are no part of what was found.
        ensures found { changing.changes_rows (kind_of command.now.operation) ≡ true → OnOk result (FindsAgain self.new (B.chip bench.new)) }
    {
        let channel = Channel {
            number: command.channel,
        };
        let operation = &command.operation;
        let known = self.known_actor(channel);
        let user = self.proved_user(channel);
        let Engine {
            tables,
            sessions,
            transaction,
            found,
            ..
        } = self;
        let sessions = &**sessions;
        let scan = &mut found.scan;
        let Some(session) = &sessions[usize::from(channel.number)] else {
            unreachable!();
        };
        let word = match transaction {
            None => change(
                tables,
                bench,
                user,
                known,
                &session.cursor,
                operation,
                scan,
                gone,
            )?,
            Some(_) => change_within(tables, bench, user, known, &session.cursor, operation, scan)?,
        };
        self.settle(channel, word);
        Ok(word)
    }

    // Who acts on a channel, where that was found. What was found for another channel is let go.
    fn known_actor(&mut self, channel: Channel) -> Option<Actor>
        ensures kept { self.new ≡ record self.old { found = self.new.found } }
        ensures found { (chip : Chip) → FindsAgain self.old chip → FindsAgain self.new chip }
        ensures actor { (chip : Chip) (db : Database) → FindsAgain self.old chip → IsHeld self.old.store (side_of self.old.transaction channel.number) chip db
            → IfSome result (λ actor. actor ≡ acting db (proved_user (session_on self.old.sessions channel.number))) }
        ensures right { (chip : Chip) (db : Database) → FindsAgain self.old chip → IsHeld self.old.store (side_of self.old.transaction channel.number) chip db
            → IsRightFor db (acting db (proved_user (session_on self.old.sessions channel.number))) self.new.found.scan (cursor_on self.old.sessions channel.number) }
    {
        let known = self.found.actor_on(channel.number);
        if known.is_none() {
            self.found.forget();
        }
        known
    }

    // The stamp of a channel's user, where that one is proved.
    fn proved_user(&self, channel: Channel) -> Option<u32>
        ensures { result ≡ proved_user (option_flatten (slice_get self.now.sessions channel.number)) }
    {
        match &self.sessions[channel.number as usize] {
            Some(session) => session.proved_user(),
            None => None,
        }
    }

    // A new session of a channel, for this user.
    fn set_user(&mut self, channel: Channel, user: Option<PresentedUser>)
        ensures { self.new ≡ with_session_for self.old channel.number user }
    {
        self.set_session(channel, Some(Session::new(user)));
    }

    // What is done drops what is pending on its channel.
    fn settle(&mut self, channel: Channel, word: StatusWord)
        ensures { self.new ≡ settled word self.old channel.number }
    {
        if word.word == StatusWord::DONE.word {
            self.drop_pending(channel);
        }
    }

    // Nothing is pending on a channel any more.
    fn drop_pending(&mut self, channel: Channel)
        ensures { self.new ≡ changing_session without_pending self.old channel.number }
    {
        if let Some(session) = &mut self.sessions[channel.number as usize] {
            session.pending.forget();
        }
    }

    // A channel has this session from now on, or is closed. It has no parts of a command.
    fn set_session(&mut self, channel: Channel, session: Option<Session>)
        ensures { self.new ≡ with_session self.old channel.number (option_map (session_seen None) session) }
    {
        self.sessions[channel.number as usize] = session;
        self.chains.forget(channel.number);
    }
}

// The channel that the class of a command names.
fn channel_named(command: &[u8]) -> Channel
    ensures { result.number ≡ accepting.channel_named command.now }
{
    match command {
        [class, ..] => Channel { number: class % 4 },
        [] => Channel { number: 0 },
    }
}
