// Commands that change what a channel reads.
ghost use Rattle.scql_model.specs.Step as stepping;
ghost use Rattle.plain_database.specs.Effects.{EndsAsMeant};
ghost use Rattle.plain_reading.specs.Outcomes.{AnswersAsMeant};
ghost use Rattle.plain_machine.specs.Answers.{base_changed, outcome_left};
ghost use Rattle.plain_machine.specs.Serving.{IsServed};

use crate::channel::Channel;
use crate::engine::Engine;
use apdu::Reply;
use scql_base::{Operation, StatusWord};

impl Engine {
    // A change of the working database where the open transaction is the channel's own, else of the committed one.
    pub(super) fn change(
        &mut self,
        channel: Channel,
        operation: &Operation,
        reply: &mut Reply,
    ) -> Result<(), StatusWord>
        requires { IsServed self.old channel }
        ensures { AnswersAsMeant self.old self.new reply.new result (outcome_left (stepping.changed self.old channel operation.now)) }
    {
        self.change_base(channel, operation)?;
        self.finish(channel, reply);
        Ok(())
    }

    // Changes what a channel reads and changes.
    fn change_base(&mut self, channel: Channel, operation: &Operation) -> Result<(), StatusWord>
        requires { IsServed self.old channel }
        ensures { EndsAsMeant self.old self.new result (base_changed self.old channel operation.now) }
    {
        let actor = self.actor(channel);
        if self.has_transaction(channel) {
            self.sessions
                .change(channel, &mut self.working, actor, operation)
        } else {
            self.sessions
                .change(channel, &mut self.committed, actor, operation)
        }
    }
}
