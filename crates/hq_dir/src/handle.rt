//! Open files, shared by a file and its seals.
ghost use Rattle.std.specs.Prelude.{◌≡◌};

use hq_store::StoreFault;
use hq_value::{Failed, NoMemory};
use std::alloc::Global;
use std::fs::OpenFile;
use std::os::unix::fs::FileExt;
use std::sync::Arc;

/// An open file. Its copies are the same open file.
#[derive(Drop)]
pub(crate) struct Handle<F: Drop> {
    file: Arc<F>,
}

/// An open file of which the disk has all bytes. Only a sync makes one.
#[derive(Drop)]
pub(crate) struct Synced<F: Drop> {
    handle: Handle<F>,
}

impl<F: Drop> Synced<F> {
    pub(crate) fn into_handle(self) -> Handle<F> {
        self.handle
    }
}

impl<F: Drop> Handle<F> {
    pub(crate) fn new(alloc: Global, file: F) -> Result<Handle<F>, NoMemory> {
        let file = Arc::new(alloc, file)?;
        Ok(Handle { file })
    }

    /// The same open file once more.
    pub(crate) fn share(&self) -> Result<Handle<F>, NoMemory> {
        let file = self.file.clone()?;
        Ok(Handle { file })
    }
}

impl<F: OpenFile + FileExt + Drop> Handle<F> {
    /// Writes all the bytes from `at` on, or some of them.
    pub(crate) fn write(&self, at: u64, bytes: &[u8]) -> Result<(), Failed> {
        self.file.write_all_at(bytes, at).map_err(|_| Failed)
    }

    /// Fills `into` with the bytes from `at` on. A file that has fewer fails.
    pub(crate) fn read(&self, at: u64, into: &mut [u8]) -> Result<(), Failed> {
        self.file.read_exact_at(into, at).map_err(|_| Failed)
    }

    /// Cuts the file to its first `len` bytes.
    pub(crate) fn cut(&self, len: u64) -> Result<(), Failed> {
        self.file.set_len(len).map_err(|_| Failed)
    }

    /// Waits until the disk has all bytes of the file.
    pub(crate) fn sync(&self) -> Result<Synced<F>, StoreFault> {
        let handle = self.share()?;
        match handle.file.sync_data() {
            Ok(()) => Ok(Synced { handle }),
            Err(_) => Err(StoreFault::Failed),
        }
    }
}
