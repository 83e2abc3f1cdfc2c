//! A source over a file of the runtime.
ghost use Rattle.std.specs.Prelude.{◌≡◌, None, IfOk};

use crate::Source;
use crate::file_fault::door_fault;
use hq_value::{DoorFault, Failed};
use std::fs;
use std::fs::OpenFile;
use std::io::Read;
use std::marker::Model;
use std::rt::Files;

/// A source over a file of the runtime `R`. It tells nothing of the file's bytes, and contracts see it as its count of
/// faults.
#[derive(Drop)]
pub struct FileSource<R: Files> {
    file: R::File,
    faults: u64,
}

impl<R: Files> Model for FileSource<R> {
    ghost use Rattle.std.specs.Prelude.{ℕ};

    ghost Value = { ℕ };

    ghost view = { λ s. s.faults };
}

impl<R: Files> FileSource<R> {
    /// The file of this name. `Failed` where there is none, where it is a folder, and where it can't be opened.
    pub fn open(rt: &R, name: &str) -> Result<FileSource<R>, DoorFault>
        ensures { IfOk result (λ source. source ≡ 0) }
    {
        let file = match fs::open(rt, name) {
            Ok(file) => file,
            Err(error) => return Err(door_fault(&error)),
        };
        match file.metadata() {
            Ok(metadata) if !metadata.is_dir() => Ok(FileSource { file, faults: 0 }),
            _ => Err(DoorFault::Failed),
        }
    }
}

impl<R: Files> Source for FileSource<R>
where
    R::File: Send,
{
    ghost left = { λ _. None };

    ghost label = { λ _. None };

    ghost faults = { λ s. s };

    ghost sound = { λ _. ⊥ };

    fn read(&mut self, into: &mut [u8]) -> Result<usize, Failed> {
        match self.file.read(into) {
            Ok(count) => Ok(count),
            Err(_) => {
                self.faults = self.faults.saturating_add(1);
                Err(Failed)
            }
        }
    }

    fn faults(&self) -> u64 {
        self.faults
    }
}
