// What an audit holds a transcript against.
ghost use Rattle.plain_machine.specs.Standing.{StandsFor};

use apdu::Reply;
use audit_run::Answering;
use eeprom::Heap;
use plain_machine::PlainMachine;
use std::alloc::AllocError;

/// The table machine on plain lists.
#[derive(Drop)]
pub struct Auditor {
    machine: PlainMachine,
}

impl Answering for Auditor {
    ghost stands_for = { λ auditor m. StandsFor auditor.machine m };

    fn open(alloc: Heap, image: &[u8]) -> Result<Option<Auditor>, AllocError> {
        let Some(machine) = PlainMachine::open(alloc, image)? else {
            return Ok(None);
        };
        Ok(Some(Auditor { machine }))
    }

    fn step(&mut self, octets: &[u8], reply: &mut Reply) {
        self.machine.step(octets, reply);
    }

    fn reset(&mut self) {
        self.machine.reset();
    }

    fn is_committed_in(&self, alloc: Heap, image: &[u8]) -> Result<bool, AllocError> {
        let Some(database) = plain_image::open(alloc, image)? else {
            return Ok(false);
        };
        Ok(self.machine.holds_database(&database))
    }
}
