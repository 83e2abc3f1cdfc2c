//! Seals of files of a folder.
ghost use Rattle.std.specs.Prelude.{◌≡◌};

use crate::handle::Handle;
use hq_store::SealCopy;
use hq_value::{Failed, FileId, NoMemory};
use std::fs::OpenFile;
use std::marker::Model;
use std::os::unix::fs::FileExt;

/// The first bytes of a file of a folder, which stay. It tells nothing of them. Its copies and its file are one open
/// file.
#[derive(Drop)]
pub struct DirSeal<F: Drop> {
    id: FileId,
    handle: Handle<F>,
    len: u64,
}

impl<F: Drop> Model for DirSeal<F> {
    ghost use Rattle.std.specs.Prelude.{[]};
    ghost use Rattle.hq_store.specs.FileStep.{SealState};

    ghost Value = { SealState };

    ghost view = { λ s. record { id = s.id; bytes = []; len = s.len } };
}

impl<F: Drop> DirSeal<F> {
    ghost use Rattle.std.specs.Prelude.{[]};

    /// A seal of the first `len` bytes.
    pub(crate) fn new(id: FileId, handle: Handle<F>, len: u64) -> DirSeal<F>
        ensures { result ≡ record { id = id; bytes = []; len = len } }
    {
        DirSeal { id, handle, len }
    }
}

impl<F: OpenFile + FileExt + Drop> DirSeal<F> {
    pub(crate) fn read(&self, at: u64, into: &mut [u8]) -> Result<(), Failed> {
        self.handle.read(at, into)
    }
}

impl<F: Drop> SealCopy for DirSeal<F> {
    ghost use Rattle.std.specs.Prelude.{false};
    ghost use Rattle.std.proofs.lemmas.Bool.{false≢true};

    ghost tells = { false };

    ghost state = { λ s. s };

    /// Copies no byte, and takes no memory.
    fn copy(&self) -> Result<DirSeal<F>, NoMemory> {
        let handle = self.handle.share()?;
        Ok(DirSeal {
            id: self.id,
            handle,
            len: self.len,
        })
    }

    fn len(&self) -> u64 {
        self.len
    }

    ghost told_len = { λ s t. absurd (false≢true t) };
}
