//! Files of a folder.
ghost use Rattle.std.specs.Prelude.{◌≡◌, ◌≢◌, ◌<◌, ◌≤◌, ◌^◌, true, false, Err, OnOk, OnErr};

use crate::dir_seal::DirSeal;
use crate::handle::{Handle, Synced};
use crate::names::LanePath;
use hq_store::{StoreFault, StoredFile};
use hq_value::{Failed, FileId};
use std::fs::OpenFile;
use std::marker::Model;
use std::os::unix::fs::FileExt;

/// A file of a folder. It tells nothing of its bytes. `synced` is there from a flush, after which the disk has all
/// bytes, to the next change of the file. After a sync that failed the system may take bytes for written that the disk
/// lacks. So `lost` is then set, and no flush succeeds before the file is cut to its sealed bytes. `named` is set once
/// the disk has the file's name too.
#[derive(Drop)]
pub struct DirFile<F: Drop> {
    id: FileId,
    handle: Handle<F>,
    sure: u64,
    sealed: u64,
    synced: Option<Synced<F>>,
    lost: bool,
    named: bool,
}

impl<F: Drop> Model for DirFile<F> {
    ghost use Rattle.std.specs.Prelude.{◌≤◌, [], is_some};
    ghost use Rattle.hq_store.specs.FileStep.{FileState};

    ghost Value = { FileState };

    ghost view = { λ f. record {
      id = f.id;
      bytes = [];
      sure = f.sure;
      sealed = f.sealed;
      flushed = is_some f.synced;
    } };

    ghost invariant = { λ f. f.sealed ≤ f.sure };
}

impl<F: Drop> StoredFile for DirFile<F> {
    ghost use Rattle.std.specs.Prelude.{false};

    ghost tells = { false };

    ghost state = { λ f. f };
}

impl<F: Drop> DirFile<F> {
    ghost use Rattle.hq_store.specs.FileStep.{FileState, IsFresh, IsSealed};

    /// A file that was just made there.
    pub(crate) fn new(path: &LanePath, handle: Handle<F>) -> DirFile<F>
        ensures { IsFresh false path.now.id result }
    {
        DirFile {
            id: path.id(),
            handle,
            sure: 0,
            sealed: 0,
            synced: None,
            lost: false,
            named: false,
        }
    }

    /// Whether the disk has the file's name.
    pub(crate) fn is_named(&self) -> bool {
        self.named
    }

    /// From now on the disk has the file's name.
    pub(crate) fn set_named(&mut self)
        ensures { self.new ≡ self.old }
    {
        self.named = true;
    }

    // Before a change: the disk may then lack some bytes.
    fn unflush(&mut self)
        ensures { self.new ≡ record self.old { flushed = false } }
    {
        self.synced = None;
    }

    pub(crate) fn seal(&mut self) -> DirSeal<F>
        requires { self.old.flushed ≡ true }
        ensures id { result.id ≡ self.old.id }
        ensures len { result.len ≡ self.old.sure }
        ensures sealed { IsSealed false self.old self.new }
    {
        self.sealed = self.sure;
        let synced = self.synced.take().unwrap();
        DirSeal::new(self.id, synced.into_handle(), self.sure)
    }
}

impl<F: OpenFile + FileExt + Drop> DirFile<F> {
    ghost use Rattle.hq_store.specs.FileStep.{FileState, IsAppended, IsTornAt, IsCut, IsSame};

    pub(crate) fn append(&mut self, bytes: &[u8]) -> Result<(), StoreFault>
        ensures added { OnOk result (IsAppended false self.old bytes.now self.new) }
        ensures fits { OnOk result (self.new.sure < 2 ^ 64) }
        ensures torn { OnErr result (IsTornAt false self.old self.old.sure self.new) }
        ensures no_memory_taken { result ≢ Err StoreFault.NoMemory }
    {
        self.unflush();
        let Some(end) = self.sure.checked_add(bytes.len() as u64) else {
            return Err(StoreFault::Failed);
        };
        if let Err(Failed) = self.handle.write(self.sure, bytes) {
            return Err(StoreFault::Failed);
        }
        self.sure = end;
        Ok(())
    }

    pub(crate) fn cut(&mut self, len: u64) -> Result<(), Failed>
        requires kept { self.old.sealed ≤ len }
        requires sure { len ≤ self.old.sure }
        ensures cut { OnOk result (IsCut false self.old len self.new) }
        ensures torn { OnErr result (IsTornAt false self.old len self.new) }
    {
        self.unflush();
        self.sure = len;
        self.handle.cut(len)?;
        self.lost = self.lost && len != self.sealed;
        Ok(())
    }

    pub(crate) fn flush(&mut self) -> Result<(), StoreFault>
        ensures flushed { OnOk result (self.new.flushed ≡ true) }
        ensures unflushed { OnErr result (self.new.flushed ≡ false) }
        ensures same { IsSame false self.old self.new }
    {
        self.unflush();
        if self.lost {
            return Err(StoreFault::Failed);
        }
        let synced = self.handle.sync();
        self.lost = matches!(&synced, Err(StoreFault::Failed));
        self.synced = Some(synced?);
        Ok(())
    }

    pub(crate) fn read(&self, at: u64, into: &mut [u8]) -> Result<(), Failed> {
        self.handle.read(at, into)
    }
}
