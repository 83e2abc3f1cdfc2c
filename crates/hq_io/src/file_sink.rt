//! A sink over a file of the runtime, or over its standard output.
ghost use Rattle.std.specs.Prelude.{◌≡◌, None, IfOk};

use crate::Sink;
use crate::file_fault::door_fault;
use hq_value::{DoorFault, Failed};
use std::io::Write;
use std::marker::Model;
use std::rt::Files;
use std::{fs, io};

// What is written to.
#[derive(Drop)]
enum Target<R: Files + Print + Drop> {
    File(R::File),
    Console(R),
}

/// A sink over a file of the runtime `R`, or over its standard output. It tells nothing of the bytes that it was
/// given, and contracts see it as its count of faults. What is written has reached the runtime when a call returns.
#[derive(Drop)]
pub struct FileSink<R: Files + Print + Drop> {
    target: Target<R>,
    faults: u64,
}

impl<R: Files + Print + Drop> Model for FileSink<R> {
    ghost use Rattle.std.specs.Prelude.{ℕ};

    ghost Value = { ℕ };

    ghost view = { λ s. s.faults };
}

impl<R: Files + Print + Drop> FileSink<R> {
    /// The file of this name, empty. `Failed` where it can't be made or emptied.
    pub fn create(rt: &R, name: &str) -> Result<FileSink<R>, DoorFault>
        ensures { IfOk result (λ sink. sink ≡ 0) }
    {
        match fs::create(rt, name) {
            Ok(file) => Ok(FileSink {
                target: Target::File(file),
                faults: 0,
            }),
            Err(error) => Err(door_fault(&error)),
        }
    }

    /// The standard output.
    pub fn console(rt: R) -> FileSink<R>
        ensures { result ≡ 0 }
    {
        FileSink {
            target: Target::Console(rt),
            faults: 0,
        }
    }
}

impl<R: Files + Print + Drop> Target<R> {
    // Writes until all is written. It fails where nothing is taken of bytes that aren't none.
    fn write(&mut self, bytes: &[u8]) -> io::Result<()> {
        match self {
            Target::File(file) => file.write_all(bytes),
            Target::Console(rt) => Print::write_all(rt, bytes),
        }
    }
}

impl<R: Files + Print + Drop + Send> Sink for FileSink<R>
where
    R::File: Send,
{
    ghost given = { λ _. None };

    ghost label = { λ _. None };

    ghost faults = { λ s. s };

    ghost sound = { λ _. ⊥ };

    fn write_all(&mut self, bytes: &[u8]) -> Result<(), Failed> {
        match self.target.write(bytes) {
            Ok(()) => Ok(()),
            Err(_) => {
                self.faults = self.faults.saturating_add(1);
                Err(Failed)
            }
        }
    }

    fn faults(&self) -> u64 {
        self.faults
    }
}
