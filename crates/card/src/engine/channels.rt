// Logical channels of a card: which are open, opening and closing them (ISO/IEC 7816-4, MANAGE CHANNEL).
ghost use Rattle.std.specs.Prelude.{◌≡◌, ◌==◌, ◌<◌, [], option_map, if◌then◌else◌};
ghost use Rattle.scql_model.specs.Replies as model;
ghost use Rattle.scql_model.specs.Step as stepping;
ghost use Rattle.card.specs.Answering.{replied};
ghost use Rattle.card.specs.CarryingOut.{RepliesAtOnce};
ghost use Rattle.card.specs.Sessions.{is_open, least_closed};

use crate::channel::Channel;
use crate::engine::Engine;
use crate::reply::without_body;
use apdu::Reply;
use scql_base::StatusWord;

impl Engine {
    // Opens the channel of this number, or where it is 0 the least that is closed, whose number is the body of the reply.
    pub(super) fn open_channel(
        &mut self,
        asking: Channel,
        channel: Channel,
        reply: &mut Reply,
    ) -> StatusWord
        ensures { RepliesAtOnce (λ m. stepping.answered m (stepping.channel_opened m asking.number channel.number)) (replied reply.new.body result) self.old self.new }
    {
        if channel.number == 0 {
            self.open_least(asking, reply)
        } else {
            without_body(reply);
            self.open_named(asking, channel)
        }
    }

    pub(super) fn open_least(&mut self, asking: Channel, reply: &mut Reply) -> StatusWord
        ensures { RepliesAtOnce (λ m. stepping.answered m (stepping.channel_opened m asking.number 0)) (replied reply.new.body result) self.old self.new }
    {
        without_body(reply);
        let Some(channel) = self.least_closed() else {
            return StatusWord::FUNCTION_NOT_SUPPORTED;
        };
        self.set_user(channel, None);
        self.drop_pending(asking);
        reply.body.push(channel.number);
        StatusWord::DONE
    }

    pub(super) fn open_named(&mut self, asking: Channel, channel: Channel) -> StatusWord
        requires named { 0 < channel.number }
        ensures { RepliesAtOnce (λ m. stepping.answered m (stepping.channel_opened m asking.number channel.number)) (model.said result) self.old self.new }
    {
        if self.is_open(channel) {
            return StatusWord::CONDITIONS_NOT_SATISFIED;
        }
        self.set_user(channel, None);
        self.drop_pending(asking);
        StatusWord::DONE
    }

    pub(super) fn close_channel(&mut self, asking: Channel, channel: Channel) -> StatusWord
        ensures { RepliesAtOnce (λ m. stepping.answered m (stepping.channel_closed m asking.number channel.number)) (model.said result) self.old self.new }
    {
        if !self.is_open(channel) {
            return StatusWord::CHANNEL_NOT_SUPPORTED;
        }
        if self.has_transaction(channel) {
            return StatusWord::CONDITIONS_NOT_SATISFIED;
        }
        self.set_session(channel, None);
        self.drop_pending(asking);
        StatusWord::DONE
    }

    pub(super) fn is_open(&self, channel: Channel) -> bool
        ensures is { result ≡ is_open self.now.sessions channel.number }
    {
        self.sessions[channel.number as usize].is_some()
    }

    pub(super) fn least_closed(&self) -> Option<Channel>
        ensures least { option_map (λ channel. channel.number) result ≡ least_closed self.now.sessions }
    {
        let first = Channel { number: 1 };
        let second = Channel { number: 2 };
        let third = Channel { number: 3 };
        if !self.is_open(first) {
            Some(first)
        } else if !self.is_open(second) {
            Some(second)
        } else if !self.is_open(third) {
            Some(third)
        } else {
            None
        }
    }
}

// The channel that a command means by a number: its own by 0.
pub(super) fn channel_meant(own: Channel, meant: Channel) -> Channel
    ensures { result.number ≡ (if meant.number == 0 then own.number else meant.number) }
{
    if meant.number == 0 { own } else { meant }
}
