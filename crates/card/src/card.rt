// A card, which answers commands over the EEPROM that it was opened on.
ghost use Rattle.std.specs.Prelude.{◌≡◌, ℕ, ◌≤◌, IfOk};
ghost use Rattle.eeprom.specs.Chip.{Chip};
ghost use Rattle.eeprom.specs.Fault.{Counts};
ghost use Rattle.eeprom.specs.StoreOf.{fewest_cells, most_cells};
ghost use Rattle.scql_model.specs.Machine as machine;
ghost use Rattle.scql_model.specs.Database as database;
ghost use Rattle.card.specs.CarryingOut.{IsReset};
ghost use Rattle.card.specs.Card.{IsReady, IsAt};
ghost use Rattle.card.specs.Counting.{counts_of};
ghost use Rattle.card.specs.Making.{MakesCard};
ghost use Rattle.card.specs.Opened.{OpensCard};
ghost use Rattle.card.specs.Replied.{AnswersCommand};

use crate::engine::Engine;
use crate::opening::open_records;
use crate::outcome::Outcome;
use apdu::Reply;
use catalog_codec::{Counter, Record};
use eeprom::{Eeprom, EepromFault, Heap};
use record_store::{FormatRefusal, OpenRefusal, RecordOctets, Store};
use scql_base::{Command, Name, Octets, Profile, StatusWord, User};
use std::marker::Model;

/// A card, which answers commands over the EEPROM that it was opened on.
#[derive(Drop)]
pub struct Card {
    engine: Engine,
    // a place for the command that is answered
    command: Box<Command, Heap>,
}

impl Model for Card {
    ghost use Rattle.card.specs.Card.{Kept};

    ghost Value = { Kept };

    ghost view = { λ card. card.engine };
}

impl Card {
    /// Makes a card of so many cells, whose database has the user `OWNER` alone.
    pub fn format<B: Eeprom>(bench: &mut B, n: u16) -> Result<(), FormatRefusal>
        requires few { fewest_cells ≤ n }
        requires many { n ≤ most_cells }
        ensures { MakesCard B.chip B.faults n bench.old bench.new result }
    {
        let mut counter = RecordOctets::new();
        Counter { next: 2 }.encode(&mut counter);
        let mut user = RecordOctets::new();
        owner().encode(&mut user);
        Store::format(bench, n, &counter, &user)
    }

    /// Opens the card of an EEPROM, where its image opens to a database. Channel 0 is open, without a user. A commit that was cut
    /// short behind an open gate is redone first. The records are let go at the end.
    pub fn open<B: Eeprom>(alloc: Heap, bench: &mut B) -> Result<Card, OpenRefusal>
        ensures { OpensCard B.chip B.faults B.octets_read bench.old bench.new result }
    {
        let opened = open_records(alloc, bench)?;
        Ok(Card {
            engine: Engine::new(opened.tables, opened.rooms),
            command: opened.command,
        })
    }

    /// Answers a command, and leaves card and EEPROM at the next machine.
    pub fn answer<B: Eeprom>(&mut self, bench: &mut B, command: &[u8], reply: &mut Reply) -> Outcome
        requires ready { IsReady self.old (B.chip bench.old) }
        ensures { AnswersCommand B.chip B.faults B.octets_read command.now bench.old bench.new self.old self.new reply.new result }
    {
        match self
            .engine
            .word_of(bench, command, &mut *self.command, reply)
        {
            Ok(word) => {
                reply.word = word;
                Outcome::Replied
            }
            Err(EepromFault) => {
                self.engine.fall_silent();
                reply.body.clear();
                reply.word = StatusWord::MEMORY_FAILURE;
                Outcome::Mute
            }
        }
    }

    /// Whether it answers: until an answer was mute.
    pub fn live(&self) -> bool
        ensures { result ≡ self.now.live }
    {
        self.engine.live()
    }

    /// Ends all sessions, and undoes a transaction that is open. Channel 0 is then open, without a user.
    pub fn reset(&mut self)
        requires ready { (chip : Chip) × IsReady self.old chip }
        ensures { IsReset self.old self.new }
    {
        self.engine.reset();
    }

    /// How many records of each kind are committed. Their kinds are kept in memory, so that nothing is read.
    pub fn counts<B: Eeprom>(&self, bench: &mut B) -> Result<crate::Counts, EepromFault>
        requires ready { IsReady self.now (B.chip bench.old) }
        ensures counts { (m : machine.Machine) → IsAt self.now (B.chip bench.old) m → IfOk result (λ counts. counts ≡ counts_of m.committed) }
        ensures unchanged { bench.new ≡ bench.old }
        ensures cause { Counts (B.faults bench.old) (B.faults bench.new) result }
    {
        Ok(self.engine.counts())
    }
}

// The user with whom a card is made.
fn owner() -> User
    ensures { result ≡ database.owner }
{
    User {
        stamp: 1,
        name: Name::read(Name::OWNER).unwrap(),
        profile: Profile::DbO,
        owner: 1,
        secret: Octets::of(b"").unwrap(),
        tries: 3,
    }
}
