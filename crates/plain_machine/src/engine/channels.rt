// MANAGE CHANNEL: channels are opened and closed (ISO/IEC 7816-4).
ghost use Rattle.scql_model.specs.Step as stepping;
ghost use Rattle.plain_reading.specs.Outcomes.{AnswersAsMeant};
ghost use Rattle.plain_machine.specs.Answers.{outcome_left};

use crate::channel::Channel;
use crate::engine::Engine;
use apdu::Reply;
use scql_base::StatusWord;

impl Engine {
    // Opens the channel of this number, or where it is 0 the least that is closed, whose number is answered.
    pub(super) fn open_channel(
        &mut self,
        channel: Channel,
        number: Channel,
        reply: &mut Reply,
    ) -> Result<(), StatusWord>
        ensures { AnswersAsMeant self.old self.new reply.new result (outcome_left (stepping.channel_opened self.old channel number)) }
    {
        if number.number() == 0 {
            let Some(least) = self.sessions.least_closed() else {
                return Err(StatusWord::FUNCTION_NOT_SUPPORTED);
            };
            self.sessions.open(least, None);
            self.finish(channel, reply);
            reply.body.push(least.number());
            return Ok(());
        }
        if self.sessions.is_open(number) {
            return Err(StatusWord::CONDITIONS_NOT_SATISFIED);
        }
        self.sessions.open(number, None);
        self.finish(channel, reply);
        Ok(())
    }

    // Closes a channel, unless it has the open transaction.
    pub(super) fn close_channel(
        &mut self,
        channel: Channel,
        number: Channel,
        reply: &mut Reply,
    ) -> Result<(), StatusWord>
        ensures { AnswersAsMeant self.old self.new reply.new result (outcome_left (stepping.channel_closed self.old channel number)) }
    {
        if !self.sessions.is_open(number) {
            return Err(StatusWord::CHANNEL_NOT_SUPPORTED);
        }
        if self.has_transaction(number) {
            return Err(StatusWord::CONDITIONS_NOT_SATISFIED);
        }
        self.sessions.close(number);
        self.finish(channel, reply);
        Ok(())
    }
}
