// BEGIN, COMMIT and ROLLBACK on the card (ISO/IEC 7816-7, PERFORM TRANSACTION OPERATION), and what an open transaction is to its channels.
ghost use Rattle.std.specs.Prelude.{◌≡◌, ◌<◌, [], None};
ghost use Rattle.eeprom.specs.Chip.{Chip};
ghost use Rattle.scql_model.specs.Bound.{octets_committed, or_nothing};
ghost use Rattle.scql_model.specs.Machine as machine;
ghost use Rattle.scql_model.specs.Operations.{kind_of};
ghost use Rattle.scql_model.specs.Replies as model;
ghost use Rattle.scql_model.specs.Sessions.{without_cursor};
ghost use Rattle.scql_model.specs.Step as stepping;
ghost use Rattle.scql_model.specs.Transactions.{waits};
ghost use Rattle.card.specs.Answering.{changing_session};
ghost use Rattle.card.specs.Card.{HoldsMachine, StandsOver};
ghost use Rattle.card.specs.CarryingOut.{CarriesOut, IsBegun, IsBegunWhereOpen, RepliesAtOnce};
ghost use Rattle.card.specs.Waiting.{has_own, keeps_waiting, side_of};

use crate::channel::Channel;
use crate::engine::Engine;
use crate::reading::is_reading;
use eeprom::{Eeprom, EepromFault};
use record_store::Side;
use scql_base::{Command, Operation, StatusWord};

impl Engine {
    // Whether the open transaction keeps a command waiting: reading waits for none, and neither does opening or closing a channel; what says
    // who acts, or takes a user away, waits for any; and all else for those of other channels.
    pub(super) fn keeps_waiting(&self, command: &Command) -> bool
        ensures { result ≡ keeps_waiting (waits (kind_of command.now.operation)) self.now.transaction command.now.channel }
    {
        let Some(own) = self.transaction else {
            return false;
        };
        match &command.operation {
            Operation::OpenChannel { .. } | Operation::CloseChannel { .. } => false,
            Operation::PresentUser { .. }
            | Operation::DeleteUser { .. }
            | Operation::Verify { .. } => true,
            operation => !is_reading(operation) && own != command.channel,
        }
    }

    // Whether a channel has the open transaction.
    pub(super) fn has_transaction(&self, channel: Channel) -> bool
        ensures { result ≡ has_own self.now.transaction channel.number }
    {
        match self.transaction {
            Some(own) => own == channel.number,
            None => false,
        }
    }

    // The side that a channel reads and changes: the working one where it has the open transaction.
    pub(super) fn side(&self, channel: Channel) -> Side
        ensures { result ≡ side_of self.now.transaction channel.number }
    {
        if self.has_transaction(channel) {
            Side::Working
        } else {
            Side::Committed
        }
    }

    // Begins a transaction of a channel, where none is open.
    pub(super) fn begin(&mut self, channel: Channel) -> StatusWord
        requires { IsBegunWhereOpen self.old }
        ensures { RepliesAtOnce (λ m. stepping.answered m (stepping.transaction_begun m channel.number)) (model.said result) self.old self.new }
    {
        if self.transaction.is_some() {
            return StatusWord::CONDITIONS_NOT_SATISFIED;
        }
        self.tables.begin();
        self.transaction = Some(channel.number);
        self.drop_pending(channel);
        StatusWord::DONE
    }

    // Commits the transaction of a channel, where it has one.
    pub(super) fn commit<B: Eeprom>(
        &mut self,
        bench: &mut B,
        channel: Channel,
    ) -> Result<StatusWord, EepromFault>
        requires ready { StandsOver self.old (B.chip bench.old) }
        ensures { CarriesOut B.chip B.faults StandsOver (λ m. stepping.answered m (stepping.transaction_committed m channel.number)) (λ m. or_nothing (octets_committed m channel.number)) [] bench.old bench.new self.old self.new result }
    {
        if !self.has_transaction(channel) {
            return Ok(StatusWord::CONDITIONS_NOT_SATISFIED);
        }
        self.tables.commit(bench)?;
        self.transaction = None;
        self.drop_pending(channel);
        Ok(StatusWord::DONE)
    }

    // Drops the transaction of a channel, where it has one, and the channel's cursor.
    pub(super) fn roll_back(&mut self, channel: Channel) -> StatusWord
        requires { IsBegunWhereOpen self.old }
        ensures { RepliesAtOnce (λ m. stepping.answered m (stepping.transaction_rolled_back m channel.number)) (model.said result) self.old self.new }
    {
        if !self.has_transaction(channel) {
            return StatusWord::CONDITIONS_NOT_SATISFIED;
        }
        self.undo();
        self.drop_cursor(channel);
        self.drop_pending(channel);
        StatusWord::DONE
    }

    // What was committed is all there is.
    pub(super) fn undo(&mut self)
        requires { IsBegun self.old }
        ensures holds { (chip : Chip) (m : machine.Machine) → HoldsMachine self.old chip m → HoldsMachine self.new chip (record m { transaction = None }) }
        ensures ready { (chip : Chip) → StandsOver self.old chip → StandsOver self.new chip }
        ensures sessions { self.new.sessions ≡ self.old.sessions }
        ensures closed { self.new.transaction ≡ None }
        ensures cells { self.new.store.chains.cells ≡ self.old.store.chains.cells }
    {
        self.tables.rollback();
        self.transaction = None;
    }

    // A channel has no cursor any more, nor is anything pending on it.
    fn drop_cursor(&mut self, channel: Channel)
        ensures { self.new ≡ changing_session without_cursor self.old channel.number }
    {
        if let Some(session) = &mut self.sessions[channel.number as usize] {
            session.cursor = None;
            session.pending.forget();
        }
    }
}
