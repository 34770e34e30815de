// The machine that is stepped.
ghost use Rattle.std.specs.Prelude.{◌≡◌, None, IfOk, IfSome};
ghost use Rattle.std.specs.Bool.{Decides};
ghost use Rattle.scql_model.specs.Database.{Database, IsValid};
ghost use Rattle.scql_model.specs.Machine as machine;
ghost use Rattle.scql_model.specs.Opens.{Opens};
ghost use Rattle.scql_model.specs.Step.{step};
ghost use Rattle.plain_machine.specs.Standing.{StandsFor};

use crate::engine::Engine;
use crate::same::is_same;
use apdu::Reply;
use eeprom::Heap;
use plain_database::PlainDatabase;
use std::alloc::AllocError;
use std::marker::Model;

/// The table machine on plain lists. It takes memory only when it is made.
#[derive(Drop)]
pub struct PlainMachine {
    engine: Engine,
}

impl Model for PlainMachine {
    ghost use Rattle.scql_model.specs.Machine.{Machine};
    ghost use Rattle.scql_model.specs.ValidMachine.{IsValidMachine};

    ghost Value = { Machine };

    ghost view = { λ p. p.engine };

    ghost invariant = { λ p. IsValidMachine p.engine };
}

impl PlainMachine {
    /// The machine with which a card begins that has this image, where the image opens to a database.
    pub fn open(alloc: Heap, image: &[u8]) -> Result<Option<PlainMachine>, AllocError>
        ensures starts { IfOk result (λ found. IfSome found (λ p. (db : Database) × Opens image.now db × (p ≡ machine.start db))) }
        ensures none { IfOk result (λ found. found ≡ None → (db : Database) → Opens image.now db → ⊥) }
    {
        match plain_image::open(alloc, image)? {
            Some(database) => Ok(Some(PlainMachine::new(alloc, database)?)),
            None => Ok(None),
        }
    }

    /// The machine with which a card begins that has a database.
    pub fn new(alloc: Heap, database: PlainDatabase) -> Result<PlainMachine, AllocError>
        requires { IsValid database }
        ensures { IfOk result (λ p. p ≡ machine.start database) }
    {
        Ok(PlainMachine {
            engine: Engine::new(alloc, database)?,
        })
    }

    /// Answers a command, and becomes the next machine.
    pub fn step(&mut self, octets: &[u8], reply: &mut Reply)
        ensures reply { (m : machine.Machine) → StandsFor self.old m → reply.new ≡ (step m octets.now).reply }
        ensures machine { (m : machine.Machine) → StandsFor self.old m → StandsFor self.new (step m octets.now).machine }
    {
        self.engine.step(octets, reply);
    }

    /// The transaction is undone, and all sessions end.
    pub fn reset(&mut self)
        ensures machine { self.new ≡ machine.reset self.old }
        ensures stands { (m : machine.Machine) → StandsFor self.old m → StandsFor self.new (machine.reset m) }
    {
        self.engine.reset();
    }

    /// Whether this is the database that is committed.
    pub fn holds_database(&self, database: &PlainDatabase) -> bool
        ensures { Decides result (self.now.committed ≡ database.now) }
    {
        is_same(self.engine.committed(), database)
    }
}
