// VERIFY on a channel: the secret of the user who is presented there.
ghost use Rattle.std.specs.Prelude.{◌≡◌, ◌<◌, [], slice_get};
ghost use Rattle.std.specs.Option.{option_flatten};
ghost use Rattle.scql_model.specs.Bound.{octets_verified, or_nothing};
ghost use Rattle.scql_model.specs.Sessions.{proving};
ghost use Rattle.scql_model.specs.Step as stepping;
ghost use Rattle.card.specs.Answering.{changing_session};
ghost use Rattle.card.specs.Card.{StandsOver};
ghost use Rattle.card.specs.CarryingOut.{CarriesOut, CommitsInTurn, StandsIdle};
ghost use Rattle.card.specs.Sessions.{unproved_user};

use crate::channel::Channel;
use crate::engine::Engine;
use eeprom::{Eeprom, EepromFault};
use scql_base::StatusWord;

impl Engine {
    // Compares a secret with that of the user who is presented on a channel, where that one isn't proved yet.
    pub(super) fn verify<B: Eeprom>(
        &mut self,
        bench: &mut B,
        channel: Channel,
        secret: &[u8],
    ) -> Result<StatusWord, EepromFault>
        requires { StandsIdle self.old (B.chip bench.old) }
        ensures carries { CarriesOut B.chip B.faults StandsOver (λ m. stepping.answered m (stepping.verified m channel.number secret.now)) (λ m. or_nothing (octets_verified m channel.number secret.now)) [] bench.old bench.new self.old self.new result }
        // Where the secret was right, there was a moment at which a power loss may leave one try less.
        ensures lowered { CommitsInTurn B.chip (λ m. stepping.answered m (stepping.verified m channel.number secret.now)) bench.old bench.new self.old result }
    {
        let Some(user) = self.unproved_user(channel) else {
            return Ok(StatusWord::CONDITIONS_NOT_SATISFIED);
        };
        let word = db_access::verify(&mut self.tables.store, bench, user, secret)?;
        if word.word == StatusWord::DONE.word {
            self.prove(channel);
        }
        self.settle(channel, word);
        Ok(word)
    }

    // The stamp of a channel's user, where that one isn't proved.
    fn unproved_user(&self, channel: Channel) -> Option<u32>
        ensures { result ≡ unproved_user (option_flatten (slice_get self.now.sessions channel.number)) }
    {
        match &self.sessions[channel.number as usize] {
            Some(session) => session.unproved_user(),
            None => None,
        }
    }

    // The user of a channel has shown the secret.
    fn prove(&mut self, channel: Channel)
        ensures { self.new ≡ changing_session proving self.old channel.number }
    {
        if let Some(session) = &mut self.sessions[channel.number as usize] {
            session.prove();
        }
    }
}
