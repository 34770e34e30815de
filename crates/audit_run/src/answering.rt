// What a transcript is held against.
ghost use Rattle.std.specs.Prelude.{◌≡◌, ◌↔◌, None, IfOk, IfSome, IsTrue};
ghost use Rattle.scql_model.specs.Database.{Database};
ghost use Rattle.scql_model.specs.Machine.{Machine, reset as reset_machine, start};
ghost use Rattle.scql_model.specs.Opens.{Opens};
ghost use Rattle.scql_model.specs.Step.{step as machine_step};

use apdu::Reply;
use eeprom::Heap;
use std::alloc::AllocError;

/// A machine that answers commands.
pub trait Answering: Drop {
    /// It stands for this machine.
    ghost stands_for: { Self → Machine → Type 0 };

    /// Starts with the database to which an image opens, where it opens to one.
    fn open(alloc: Heap, image: &[u8]) -> Result<Option<Self>, AllocError>
        ensures starts { IfOk result (λ found. IfSome found (λ machine. (db : Database) × Opens image.now db × stands_for machine (start db))) }
        ensures none { IfOk result (λ found. found ≡ None → (db : Database) → Opens image.now db → ⊥) };

    /// Answers a command.
    fn step(&mut self, octets: &[u8], reply: &mut Reply)
        ensures reply { (m : Machine) → stands_for self.old m → reply.new ≡ (machine_step m octets.now).reply }
        ensures machine { (m : Machine) → stands_for self.old m → stands_for self.new (machine_step m octets.now).machine };

    /// Begins anew, with what is committed.
    fn reset(&mut self)
        ensures { (m : Machine) → stands_for self.old m → stands_for self.new (reset_machine m) };

    /// Whether an image opens to what is committed.
    fn is_committed_in(&self, alloc: Heap, image: &[u8]) -> Result<bool, AllocError>
        ensures { (m : Machine) → stands_for self.now m → IfOk result (λ is. IsTrue is ↔ Opens image.now m.committed) };
}
