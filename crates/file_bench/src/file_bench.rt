// A real file as a card's EEPROM, and standard output as the outlet of its answers.
ghost use Rattle.std.specs.Prelude.{◌≡◌, ◌≤◌, ◌+◌, None, IfOk, length, refl};
ghost use Rattle.file_bench.specs.FileChip.{file_chip};
ghost use Rattle.std.proofs.Common.{rules};

use crate::FileFault;
use crate::card_file::CardFile;
use crate::fault_count::count_fault;
use crate::standard_output::write_out;
use eeprom::{Bench, Eeprom, EepromFault, Outlet, SinkFault};
use std::fs::{File, Files};
use std::io;

/// The octets of the image, however short the file is.
pub const FILE_SIZE: usize = 262_144;

/// A file and standard output. It tells no contents, neither of the image nor of what was given.
#[derive(Drop)]
pub struct FileBench<R: Print + Drop> {
    rt: R,
    file: CardFile,
    faults: u64,
    sink_faults: u64,
}

impl<R: Files<File = File> + Print + Drop> FileBench<R> {
    /// Opens the file, which is made where it is missing and `create` says so, and holds it.
    pub fn open(rt: R, path: &str, create: bool) -> Result<FileBench<R>, FileFault>
        ensures size { IfOk result (λ bench. (⟦<FileBench<R> as Eeprom>⟧.chip bench).still.size ≡ FILE_SIZE) }
        ensures faults { IfOk result (λ bench. ⟦<FileBench<R> as Eeprom>⟧.faults bench ≡ 0) }
        ensures sink_faults { IfOk result (λ bench. ⟦<FileBench<R> as Outlet>⟧.sink_faults bench ≡ 0) }
    {
        let file = CardFile::open(&rt, path, create)?;
        Ok(FileBench {
            rt,
            file,
            faults: 0,
            sink_faults: 0,
        })
    }
}

impl<R: Print + Drop> Eeprom for FileBench<R> {
    ghost chip = { λ bench. file_chip bench.sink_faults };

    ghost octets_read = { λ _. None };

    ghost faults = { λ bench. bench.faults };

    fn size(&self) -> usize {
        FILE_SIZE
    }

    fn read(&mut self, at: usize, into: &mut [u8]) -> Result<(), EepromFault> {
        let answer = self.file.read(at, into);
        count_fault(&mut self.faults, answer, EepromFault)
    }

    fn write(&mut self, at: usize, from: &[u8]) -> Result<(), EepromFault> {
        let answer = self.file.write(at, from);
        count_fault(&mut self.faults, answer, EepromFault)
    }

    ghost small = { λ _. Prim.search rules };

    ghost clocked = { λ _. tt };

    ghost sized = { λ _. tt };
}

impl<R: Print + Drop> Outlet for FileBench<R> {
    ghost given = { λ _. None };

    ghost sink_faults = { λ bench. bench.sink_faults };

    ghost leaves = { λ old new. new.faults ≡ old.faults };

    fn give(&mut self, octets: &[u8]) -> Result<(), SinkFault> {
        let answer = write_out(&mut io::writer(&self.rt), octets);
        count_fault(&mut self.sink_faults, answer, SinkFault)
    }
}

impl<R: Print + Drop> Bench for FileBench<R> {
    ghost output = { λ _. (refl, refl) };

    ghost mark = { λ _. tt };

    ghost gives = { λ _ _ kept. (Prim.search rules, kept, refl) };
}
