// The card's file: each read is one call of the system where the file gives it whole, and each write one and a sync.
ghost use Rattle.std.specs.Prelude.{◌+◌, ◌≤◌, length};

use crate::FileFault;
use crate::file_bench::FILE_SIZE;
use std::fs::{File, Files, OpenFile, OpenOptions, TryLockError};
use std::io;
use std::os::unix::fs::{FileExt, OpenOptionsExt};

/// The permissions of a file that is made: its owner alone may read and write it.
const OWNER_ALONE: u32 = 0o600;

/// A file that is held for one card, as long as it is open.
#[derive(Drop)]
pub struct CardFile {
    file: File,
    /// How many octets the file has, or more behind a write that failed. It is asked once.
    length: u64,
}

impl CardFile {
    /// Opens the file, which is made where it is missing and `create` says so. A file that is there keeps its permissions.
    /// Before it is looked at, it is held.
    pub fn open<R: Files<File = File>>(
        rt: &R,
        path: &str,
        create: bool,
    ) -> Result<CardFile, FileFault> {
        let file = OpenOptions::new()
            .read(true)
            .write(true)
            .create(create)
            .mode(OWNER_ALONE)
            .open(rt, path)?;
        hold(&file)?;
        let length = file.metadata()?.len();
        Ok(CardFile { file, length })
    }

    /// Reads from a place on. What lies past the file's end reads as 00.
    pub fn read(&self, at: usize, into: &mut [u8]) -> io::Result<()>
        requires within { at + length into.old ≤ FILE_SIZE }
    {
        let mut filled = 0;
        while filled < into.len() {
            let count = self
                .file
                .read_at(&mut into[filled..], (at + filled) as u64)?;
            if count == 0 {
                break;
            }
            filled += count;
        }
        into[filled..].fill(0);
        Ok(())
    }

    /// Writes from a place on, and syncs. A file that ends before the place is extended with 00 first.
    pub fn write(&mut self, at: usize, from: &[u8]) -> io::Result<()>
        requires within { at + length from.now ≤ FILE_SIZE }
    {
        let place = at as u64;
        if self.length < place {
            self.file.set_len(place)?;
        }
        self.length = self.length.max(place + from.len() as u64);
        self.file.write_all_at(from, place)?;
        self.file.sync_all()
    }
}

// Holds the file against all others that would hold it, until it is closed. A file system that has no locks lets all of them in.
fn hold(file: &File) -> Result<(), FileFault> {
    match file.try_lock() {
        Err(TryLockError::WouldBlock) => Err(FileFault::Held),
        Ok(()) | Err(TryLockError::Error(_)) => Ok(()),
    }
}
