// A file as a source of octets.
ghost use Rattle.std.specs.Prelude.{◌≡◌, None, IfOk, IsOkUnless};
ghost use Rattle.file_bench.specs.declared.file_fault.FileFault.TheVariants.{NoFile};

use crate::FileFault;
use crate::fault_count::count_fault;
use eeprom::{Source, SourceFault};
use std::fs;
use std::fs::Files;
use std::io::Read;

/// A file that is read from its beginning on. It doesn't tell what is still to come.
#[derive(Drop)]
pub struct FileSource<R: Files + Drop> {
    file: R::File,
    faults: u64,
}

impl<R: Files + Drop> FileSource<R> {
    /// Opens the file, which is there already. It doesn't hold it.
    pub fn open(rt: R, path: &str) -> Result<FileSource<R>, FileFault>
        ensures fault { IsOkUnless result NoFile }
        ensures faults { IfOk result (λ source. ⟦<FileSource<R> as Source>⟧.source_faults source ≡ 0) }
    {
        let file = fs::open(&rt, path)?;
        Ok(FileSource { file, faults: 0 })
    }
}

impl<R: Files + Drop> Source for FileSource<R> {
    ghost left = { λ _. None };

    ghost source_faults = { λ source. source.faults };

    fn read(&mut self, into: &mut [u8]) -> Result<usize, SourceFault> {
        let answer = self.file.read(into);
        count_fault(&mut self.faults, answer, SourceFault)
    }
}
