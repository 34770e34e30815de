// BEGIN, COMMIT and ROLLBACK on a channel.
ghost use Rattle.scql_model.specs.Database.{IsValid};
ghost use Rattle.scql_model.specs.Step as stepping;
ghost use Rattle.plain_reading.specs.Outcomes.{AnswersAsMeant};
ghost use Rattle.plain_machine.specs.Answers.{outcome_left};

use crate::channel::Channel;
use crate::engine::Engine;
use apdu::Reply;
use scql_base::StatusWord;
use std::mem;

impl Engine {
    // BEGIN: the working database begins as the committed one.
    pub(super) fn begin(&mut self, channel: Channel, reply: &mut Reply) -> Result<(), StatusWord>
        requires { IsValid self.old.committed }
        ensures { AnswersAsMeant self.old self.new reply.new result (outcome_left (stepping.transaction_begun self.old channel)) }
    {
        if self.transaction.is_some() {
            return Err(StatusWord::CONDITIONS_NOT_SATISFIED);
        }
        self.working.take_over(&self.committed.as_valid());
        self.transaction = Some(channel.number());
        self.finish(channel, reply);
        Ok(())
    }

    // COMMIT: the working database is committed.
    pub(super) fn commit(&mut self, channel: Channel, reply: &mut Reply) -> Result<(), StatusWord>
        ensures { AnswersAsMeant self.old self.new reply.new result (outcome_left (stepping.transaction_committed self.old channel)) }
    {
        if !self.has_transaction(channel) {
            return Err(StatusWord::CONDITIONS_NOT_SATISFIED);
        }
        mem::swap(&mut self.committed, &mut self.working);
        self.transaction = None;
        self.finish(channel, reply);
        Ok(())
    }

    // ROLLBACK: the working database is dropped, and so is the channel's cursor.
    pub(super) fn roll_back(
        &mut self,
        channel: Channel,
        reply: &mut Reply,
    ) -> Result<(), StatusWord>
        ensures { AnswersAsMeant self.old self.new reply.new result (outcome_left (stepping.transaction_rolled_back self.old channel)) }
    {
        if !self.has_transaction(channel) {
            return Err(StatusWord::CONDITIONS_NOT_SATISFIED);
        }
        self.transaction = None;
        self.sessions.drop_cursor(channel);
        self.finish(channel, reply);
        Ok(())
    }
}
