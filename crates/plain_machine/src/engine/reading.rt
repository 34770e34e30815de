// Commands that read.
ghost use Rattle.std.specs.Prelude.{◌≡◌};
ghost use Rattle.scql_model.specs.Machine as machine;
ghost use Rattle.scql_model.specs.Moves.{moved};
ghost use Rattle.scql_model.specs.Sessions as model;
ghost use Rattle.scql_model.specs.Step as stepping;
ghost use Rattle.scql_model.specs.Touched.{without_touched};
ghost use Rattle.plain_reading.specs.Commands.{command_seen};
ghost use Rattle.plain_machine.specs.Answers.{left_by_answer};
ghost use Rattle.plain_machine.specs.Reading.{ReadsOnChannel};
ghost use Rattle.plain_machine.specs.Serving.{IsServed};

use crate::channel::Channel;
use crate::engine::{Engine, say};
use apdu::Reply;
use plain_reading::ReadingCommand;
use scql_base::StatusWord;

impl Engine {
    // A reading command moves over what its channel reads, for whom it acts.
    pub(super) fn read(&mut self, channel: Channel, command: &ReadingCommand<'_>, reply: &mut Reply)
        requires { IsServed self.old channel }
        ensures { record { reply = reply.new; after = self.new } ≡ left_by_answer (stepping.reading_done self.old channel (command_seen command.now)) }
    {
        if let Err(word) = self.read_base(channel, command, reply) {
            say(reply, word);
        }
    }

    // Reads what a channel reads and changes, or refuses it.
    fn read_base(
        &mut self,
        channel: Channel,
        command: &ReadingCommand<'_>,
        reply: &mut Reply,
    ) -> Result<(), StatusWord>
        requires { IsServed self.old channel }
        ensures { ReadsOnChannel (λ m. model.reading_of m channel) (λ reading. without_touched (model.changing_session (model.reading_so reading) self.old channel)) self.old self.new reply.new result
            (moved (machine.base self.old channel) (machine.actor self.old channel) (model.reading_of self.old channel) (command_seen command.now)) }
    {
        let actor = self.actor(channel);
        if self.has_transaction(channel) {
            let database = self.working.as_valid();
            self.sessions
                .read(channel, &database, actor, command, reply)
        } else {
            let database = self.committed.as_valid();
            self.sessions
                .read(channel, &database, actor, command, reply)
        }
    }
}
