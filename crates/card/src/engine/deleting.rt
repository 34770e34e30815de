// DELETE USER on the card: the user goes, and its sessions with it.
ghost use Rattle.std.specs.Prelude.{◌≡◌, ◌<◌, [], None, map, option_map};
ghost use Rattle.scql_base.specs.declared.operation.Operation.TheVariants as asks;
ghost use Rattle.scql_model.specs.Bound.{octets_changed, or_nothing};
ghost use Rattle.scql_model.specs.Sessions.{left_by};
ghost use Rattle.scql_model.specs.Step as stepping;
ghost use Rattle.card.specs.Card.{StandsOver};
ghost use Rattle.card.specs.CarryingOut.{CarriesOut, MayCarryOut};
ghost use Rattle.card.specs.Sessions.{left_session};

use crate::engine::Engine;
use crate::session::Session;
use eeprom::{Eeprom, EepromFault};
use scql_base::{Command, Name, StatusWord};

impl Engine {
    // Deletes the user of a name, as a command asks. Each session that presented it has neither user nor cursor then.
    pub(super) fn delete_user<B: Eeprom>(
        &mut self,
        bench: &mut B,
        command: &Command,
        name: Name,
    ) -> Result<StatusWord, EepromFault>
        requires asked { MayCarryOut self.old (B.chip bench.old) command.now }
        requires closed { self.old.transaction ≡ None }
        requires deletes { command.now.operation ≡ asks.DeleteUser name }
        ensures { CarriesOut B.chip B.faults StandsOver (λ m. stepping.answered m (stepping.user_and_sessions_deleted m command.now.channel name)) (λ m. or_nothing (octets_changed m command.now.channel command.now.operation)) [] bench.old bench.new self.old self.new result }
    {
        let mut gone = None;
        let word = self.change(bench, command, &mut gone)?;
        if let Some(stamp) = gone {
            self.leave(stamp);
        }
        Ok(word)
    }

    // Each session that presents the user of a stamp has neither user nor cursor any more.
    fn leave(&mut self, stamp: u32)
        ensures { self.new ≡ record self.old { sessions = map (option_map (left_by stamp)) self.old.sessions } }
    {
        leave_each(&mut self.sessions, stamp);
    }
}

fn leave_each(sessions: &mut [Option<Session>; 4], stamp: u32)
    ensures { sessions.new ≡ map (option_map (left_session stamp)) sessions.old }
{
    for session in sessions.iter_mut() {
        if let Some(session) = session {
            session.leave(stamp);
        }
    }
}
