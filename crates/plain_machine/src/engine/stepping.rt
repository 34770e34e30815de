// A step: octets are taken, and the command that they are is carried out.
ghost use Rattle.std.specs.Prelude.{◌≡◌};
ghost use Rattle.scql_model.specs.Operations.{kind_of};
ghost use Rattle.scql_model.specs.Step as stepping;
ghost use Rattle.scql_model.specs.Transactions.{is_kept_waiting, waits};
ghost use Rattle.scql_model.specs.ValidMachine.{IsValidMachine};
ghost use Rattle.plain_reading.specs.Outcomes.{AnswersAsMeant};
ghost use Rattle.plain_machine.specs.Answers.{left_by_answer, outcome_left};
ghost use Rattle.plain_machine.specs.Serving.{ServesCommand, ServesOperation};

use crate::channel::Channel;
use crate::engine::{Engine, say};
use apdu::Reply;
use apdu_chain::Taken;
use plain_reading::ReadingCommand;
use scql_base::{Command, Operation, StatusWord};

impl Engine {
    /// Answers a command, and becomes the next machine.
    pub(crate) fn step(&mut self, octets: &[u8], reply: &mut Reply)
        requires { IsValidMachine self.old }
        ensures { record { reply = reply.new; after = self.new } ≡ left_by_answer (stepping.step self.old octets.now) }
    {
        let limit = self.committed.limit();
        let mut command = Command {
            channel: 0,
            operation: Operation::OpenCursor,
            le: None,
        };
        match self.sessions.take(octets, limit, &mut command) {
            Taken::Refused { word } => say(reply, word),
            Taken::Kept => self.finish(Channel::named(octets), reply),
            Taken::Whole => {
                if let Err(word) = self.carry_out(&command, reply) {
                    say(reply, word);
                }
            }
        }
    }

    // An open transaction may stand against a command; else it reads, or does what its operation does.
    fn carry_out(&mut self, command: &Command, reply: &mut Reply) -> Result<(), StatusWord>
        requires { ServesCommand self.old command.now }
        ensures { AnswersAsMeant self.old self.new reply.new result (outcome_left (stepping.carried_out self.old command.now)) }
    {
        let channel = Channel::new(command.channel);
        if self.keeps_waiting(channel, &command.operation) {
            return Err(StatusWord::CONDITIONS_NOT_SATISFIED);
        }
        match ReadingCommand::of(&command.operation, command.le) {
            Some(reading) => {
                self.read(channel, &reading, reply);
                Ok(())
            }
            None => self.operate(channel, &command.operation, reply),
        }
    }

    // What an operation does that doesn't read.
    fn operate(
        &mut self,
        channel: Channel,
        operation: &Operation,
        reply: &mut Reply,
    ) -> Result<(), StatusWord>
        requires { ServesOperation self.old channel operation.now }
        ensures { AnswersAsMeant self.old self.new reply.new result (outcome_left (stepping.operated self.old channel operation.now)) }
    {
        match operation {
            Operation::Begin => self.begin(channel, reply),
            Operation::Commit => self.commit(channel, reply),
            Operation::Rollback => self.roll_back(channel, reply),
            Operation::PresentUser { name } => self.present_user(channel, name, reply),
            Operation::DeleteUser { name } => self.delete_user(channel, name, operation, reply),
            Operation::Verify { secret } => self.verify(channel, secret.as_slice(), reply),
            Operation::OpenChannel { number } => {
                self.open_channel(channel, Channel::new(*number), reply)
            },
            Operation::CloseChannel { number } => {
                self.close_channel(channel, channel.meant(Channel::new(*number)), reply)
            }
            _ => self.change(channel, operation, reply),
        }
    }

    // Whether the open transaction keeps a command waiting.
    fn keeps_waiting(&self, channel: Channel, operation: &Operation) -> bool
        ensures { result ≡ is_kept_waiting (waits (kind_of operation.now)) self.now.transaction channel }
    {
        let Some(own) = self.transaction else {
            return false;
        };
        match operation {
            Operation::DeclareCursor { .. }
            | Operation::OpenCursor
            | Operation::Next
            | Operation::Fetch
            | Operation::FetchNext
            | Operation::GetResponse
            | Operation::OpenChannel { .. }
            | Operation::CloseChannel { .. } => false,
            Operation::PresentUser { .. }
            | Operation::Verify { .. }
            | Operation::DeleteUser { .. } => true,
            _ => own != channel.number(),
        }
    }
}
