// PRESENT USER, VERIFY and DELETE USER on a channel.
ghost use Rattle.std.specs.Prelude.{◌≡◌, Some, IfSome, option_copied};
ghost use Rattle.scql_base.specs.Words as words;
ghost use Rattle.scql_base.specs.declared.operation.Operation.TheVariants as asks;
ghost use Rattle.scql_model.specs.Database.{IsValid, user_stamped};
ghost use Rattle.scql_model.specs.Machine as machine;
ghost use Rattle.scql_model.specs.Step as stepping;
ghost use Rattle.plain_reading.specs.Outcomes.{AnswersAsMeant};
ghost use Rattle.plain_machine.specs.Answers.{outcome_left, presented_named, unproved_user};
ghost use Rattle.plain_machine.specs.Serving.{IsServed};

use crate::channel::Channel;
use crate::engine::{Engine, say};
use apdu::Reply;
use scql_base::{Name, Operation, PresentedUser, StatusWord, User};

impl Engine {
    // PRESENT USER: the session is a new one of the named user, or of nobody where the name is PUBLIC.
    pub(super) fn present_user(
        &mut self,
        channel: Channel,
        name: &Name,
        reply: &mut Reply,
    ) -> Result<(), StatusWord>
        ensures { AnswersAsMeant self.old self.new reply.new result (outcome_left (stepping.user_presented self.old channel name.now)) }
    {
        let user = self.presented(channel, name)?;
        self.sessions.open(channel, user);
        self.finish(channel, reply);
        Ok(())
    }

    // VERIFY: the right secret gives all tries back and proves the user, and a wrong one leaves one try less.
    pub(super) fn verify(
        &mut self,
        channel: Channel,
        secret: &[u8],
        reply: &mut Reply,
    ) -> Result<(), StatusWord>
        requires { IsValid self.old.committed }
        ensures { AnswersAsMeant self.old self.new reply.new result (outcome_left (stepping.verified self.old channel secret.now)) }
    {
        let Some(user) = self.unproved_user(channel) else {
            return Err(StatusWord::CONDITIONS_NOT_SATISFIED);
        };
        if user.tries == 0 {
            return Err(StatusWord::AUTHENTICATION_BLOCKED);
        }
        let stamp = user.stamp;
        let tries = user.tries - 1;
        if secret == user.secret.as_slice() {
            self.committed.set_tries(stamp, User::ALL_TRIES);
            self.sessions.prove(channel);
            self.finish(channel, reply);
        } else {
            self.committed.set_tries(stamp, tries);
            say(reply, tries_left(tries));
        }
        Ok(())
    }

    // DELETE USER: besides the change, each session that presented the user has neither user nor cursor any more.
    pub(super) fn delete_user(
        &mut self,
        channel: Channel,
        name: &Name,
        operation: &Operation,
        reply: &mut Reply,
    ) -> Result<(), StatusWord>
        requires served { IsServed self.old channel }
        requires deletes { operation.now ≡ asks.DeleteUser name.now }
        ensures { AnswersAsMeant self.old self.new reply.new result (outcome_left (stepping.user_and_sessions_deleted self.old channel name.now)) }
    {
        let Some(user) = self.base(channel).user_named(name) else {
            return Err(StatusWord::NOT_FOUND);
        };
        let stamp = user.stamp;
        self.change(channel, operation, reply)?;
        self.sessions.leave(stamp);
        Ok(())
    }

    // The user of a name as it is presented, or nobody where the name is PUBLIC.
    fn presented(&self, channel: Channel, name: &Name) -> Result<Option<PresentedUser>, StatusWord>
        ensures { result ≡ presented_named (machine.base self.now channel) name.now }
    {
        if name.octets() == Name::PUBLIC {
            return Ok(None);
        }
        match self.base(channel).user_named(name) {
            Some(user) => Ok(Some(PresentedUser {
                stamp: user.stamp,
                proved: user.secret.as_slice().is_empty(),
            })),
            None => Err(StatusWord::NOT_FOUND),
        }
    }

    // The user of a channel, where that one isn't proved.
    fn unproved_user(&self, channel: Channel) -> Option<&User>
        requires { IsValid self.now.committed }
        ensures user { option_copied result ≡ unproved_user self.now channel }
        ensures stamped { IfSome result (λ u. user_stamped self.now.committed.users u.now.stamp ≡ Some u.now) }
    {
        let user = self.sessions.user(channel)?;
        if user.proved {
            None
        } else {
            self.committed.as_valid().user_stamped(user.stamp)
        }
    }
}

// The word that says how many tries are left.
fn tries_left(tries: u8) -> StatusWord
    ensures { result ≡ words.tries_left tries }
{
    StatusWord {
        word: 0x63C0 + tries.min(15) as u16,
    }
}
