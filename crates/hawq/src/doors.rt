//! Doors over the files of the runtime.
ghost use Rattle.std.specs.Prelude.{◌≡◌, ◌++◌, None, codes, string_bytes, IfOk};

use hq_doors::{Doors, Opening, Parts};
use hq_io::{FileSink, FileSource};
use hq_value::{DoorFault, NoMemory};
use std::alloc::Global;
use std::marker::Model;
use std::rt::Files;

/// Doors over the files of the runtime `R`. They tell nothing of what they open, and contracts see them as their
/// count of faults.
#[derive(Drop)]
pub struct RealDoors<R: Files + Print + Drop> {
    rt: R,
    alloc: Global,
    faults: u64,
}

impl<R: Files + Print + Drop> Model for RealDoors<R> {
    ghost use Rattle.std.specs.Prelude.{ℕ};

    ghost Value = { ℕ };

    ghost view = { λ d. d.faults };
}

// The name of the file that is written beside the file of this name.
fn out_name(alloc: Global, name: &str) -> Result<String, NoMemory>
    ensures { IfOk result (λ out. string_bytes out ≡ name.now ++ codes ".out") }
{
    let mut out = String::from_str(alloc, name)?;
    out.push_str(".out")?;
    Ok(out)
}

impl<R: Files + Print + Drop> RealDoors<R> {
    /// Doors that have not failed yet.
    pub fn new(rt: R, alloc: Global) -> RealDoors<R>
        ensures { result ≡ 0 }
    {
        RealDoors {
            rt,
            alloc,
            faults: 0,
        }
    }

    // The file of this name, and the one that is written beside it.
    fn open_file(&self, name: &str) -> Result<Parts<FileSource<R>, FileSink<R>>, DoorFault>
        ensures source { IfOk result (λ parts. parts.source ≡ 0) }
        ensures sink { IfOk result (λ parts. parts.sink ≡ 0) }
    {
        let source = FileSource::open(&self.rt, name)?;
        let Ok(out) = out_name(self.alloc, name) else {
            return Err(DoorFault::NoMemory);
        };
        let sink = FileSink::create(&self.rt, out.as_str())?;
        Ok(Parts { source, sink })
    }
}

impl<R: Files + Print + Drop + Send> Doors for RealDoors<R>
where
    R::File: Send,
{
    type Source = FileSource<R>;

    type Sink = FileSink<R>;

    type Console = FileSink<R>;

    ghost opened = { λ _. None };

    ghost file = { λ _ _. None };

    ghost faults = { λ d. d };

    /// `Failed` where the file is missing, is a folder or can't be opened, where the one beside it can't be made, and
    /// for a script.
    fn open(
        &mut self,
        _session: u32,
        what: Opening,
    ) -> Result<Parts<FileSource<R>, FileSink<R>>, DoorFault> {
        let opened = match what {
            Opening::File(name) => self.open_file(name),
            Opening::Script(_) => Err(DoorFault::Failed),
        };
        if let Err(DoorFault::Failed) = &opened {
            self.faults = self.faults.saturating_add(1);
        }
        opened
    }

    fn faults(&self) -> u64 {
        self.faults
    }
}
