//! A store over the files of a folder.
ghost use Rattle.std.specs.Prelude.{◌≡◌, ◌≢◌, ℕ, ◌+◌, ◌<◌, ◌≤◌, ◌^◌, true, false, length, Err, IfOk, OnOk, OnErr, IsErrOf};
ghost use Rattle.hq_value.specs.Causes.{Rose, GoesOn, GoesOnGiving, raised};
ghost use Rattle.hq_store.specs.Kept.{ChangesOnly, KeepsSeal, untold};
ghost use Rattle.hq_dir.specs.Counts.{CountsFault, CountsFailure};

use crate::dir_file::DirFile;
use crate::dir_seal::DirSeal;
use crate::handle::Handle;
use crate::names::LanePath;
use hq_store::{Store, StoreFault};
use hq_value::{DoorFault, Failed, FileId, NoMemory};
use std::alloc::Global;
use std::fs;
use std::fs::{OpenFile, OpenOptions};
use std::marker::Model;
use std::os::unix::fs::FileExt;
use std::rt::Files;

/// A client of the store over a folder. The file of table 0, lane 0 and bucket 15 is `t0-l0-b15`. All clients over one
/// folder are clients of one store. Contracts see it as its counts: it tells nothing of bytes, and promises of no call
/// that it will not fail.
#[derive(Drop)]
pub struct DirStore<R: Files + Drop> {
    rt: R,
    alloc: Global,
    folder: String,
    faults: u64,
    given: u64,
}

impl<R: Files + Drop> Model for DirStore<R> {
    ghost use Rattle.hq_dir.specs.Counts.{StoreCounts};

    ghost Value = { StoreCounts };

    ghost view = { λ s. record { faults = s.faults; given = s.given } };
}

impl<R: Files + Drop> DirStore<R> {
    /// A client over a folder, which has met no fault. `Failed` where the folder can't be listed.
    pub fn open(rt: R, alloc: Global, folder: &str) -> Result<DirStore<R>, DoorFault>
        ensures { IfOk result (λ store. store ≡ record { faults = 0; given = 0 }) }
    {
        if rt.open_dir(folder).is_err() {
            return Err(DoorFault::Failed);
        }
        let Ok(folder) = String::from_str(alloc, folder) else {
            return Err(DoorFault::NoMemory);
        };
        Ok(DirStore {
            rt,
            alloc,
            folder,
            faults: 0,
            given: 0,
        })
    }

    // Counts a fault.
    fn fail(&mut self)
        ensures fault { self.new ≡ record self.old { faults = raised self.old.faults 1 } }
        ensures rose { Rose self.old.faults self.new.faults }
        ensures later { self.old.faults ≤ self.new.faults }
    {
        self.faults = self.faults.saturating_add(1);
    }

    // Counts the fault of a call that failed.
    fn count<T>(&mut self, outcome: Result<T, StoreFault>) -> Result<T, StoreFault>
        ensures same { result ≡ outcome }
        ensures exact { CountsFault result self.old.faults self.new.faults }
        ensures cause { IsErrOf result StoreFault.Failed → Rose self.old.faults self.new.faults }
        ensures counts { GoesOn (λ s. s.faults) (λ s. s.given) (λ _. ⊥) self.old self.new }
    {
        if let Err(StoreFault::Failed) = &outcome {
            self.fail();
        }
        outcome
    }

    // The same of a call that has no other fault.
    fn count_failure(&mut self, outcome: Result<(), Failed>) -> Result<(), Failed>
        ensures same { result ≡ outcome }
        ensures exact { CountsFailure result self.old.faults self.new.faults }
        ensures cause { OnErr result (Rose self.old.faults self.new.faults) }
        ensures counts { GoesOn (λ s. s.faults) (λ s. s.given) (λ _. ⊥) self.old self.new }
    {
        if outcome.is_err() {
            self.fail();
        }
        outcome
    }

    // Counts the bytes that a read gave, or its fault.
    fn count_read(&mut self, outcome: Result<(), Failed>, len: usize) -> Result<(), Failed>
        ensures exact { CountsFailure result self.old.faults self.new.faults }
        ensures cause { OnErr result (Rose self.old.faults self.new.faults) }
        ensures gave { OnOk result (GoesOnGiving (λ s. s.faults) (λ s. s.given) (λ _. ⊥) len self.old self.new) }
        ensures gave_none { OnErr result (GoesOn (λ s. s.faults) (λ s. s.given) (λ _. ⊥) self.old self.new) }
    {
        self.count_failure(outcome)?;
        self.given = self.given.saturating_add(len as u64);
        Ok(())
    }
}

impl<R: Files + Drop> DirStore<R>
where
    R::File: FileExt,
{
    ghost use Rattle.hq_store.specs.FileStep.{IsFresh, IsSame, StaysUnflushed};

    // Makes a file that is not there yet. Without memory for it, it is removed again.
    fn make(&self, id: FileId) -> Result<DirFile<R::File>, StoreFault>
        ensures { IfOk result (λ file. IsFresh false id file) }
    {
        let path = LanePath::new(self.alloc, self.folder.as_str(), id)?;
        let mut how = OpenOptions::new();
        how.read(true).write(true).create_new(true);
        let Ok(file) = how.open(&self.rt, path.as_str()) else {
            return Err(StoreFault::Failed);
        };
        match Handle::new(self.alloc, file) {
            Ok(handle) => Ok(DirFile::new(&path, handle)),
            Err(NoMemory) => Err(self.unmake(path.as_str())),
        }
    }

    // Waits until the disk has the names of the folder's files.
    fn sync_names(&self) -> Result<(), Failed> {
        let Ok(folder) = fs::open(&self.rt, self.folder.as_str()) else {
            return Err(Failed);
        };
        folder.sync_all().map_err(|_| Failed)
    }

    // Waits until the disk has a file's bytes, and its name where it is new.
    fn sync(&self, file: &mut DirFile<R::File>) -> Result<(), StoreFault>
        ensures flushed { OnOk result (file.new.flushed ≡ true) }
        ensures unflushed { OnErr result (StaysUnflushed file.old file.new) }
        ensures same { IsSame false file.old file.new }
    {
        if !file.is_named() {
            if let Err(Failed) = self.sync_names() {
                return Err(StoreFault::Failed);
            }
            file.set_named();
        }
        file.flush()
    }

    // Removes a file that has no handle.
    fn unmake(&self, path: &str) -> StoreFault {
        match fs::remove_file(&self.rt, path) {
            Ok(()) => StoreFault::NoMemory,
            Err(_) => StoreFault::Failed,
        }
    }
}

impl<R: Files + Drop> Store for DirStore<R>
where
    R::File: FileExt,
{
    ghost use Rattle.hq_store.specs.FileStep.{HasNoTail, IsFresh, IsAppended, IsTornAt, IsCut, IsSame, IsSealed, StaysUnflushed};

    type File = DirFile<R::File>;

    type Seal = DirSeal<R::File>;

    ghost faults = { λ s. s.faults };

    ghost given = { λ s. s.given };

    ghost sound = { λ _. ⊥ };

    ghost kept = { λ _. untold };

    /// `Failed` where the folder has a file of that name, and where none can be made.
    fn create(&mut self, id: FileId) -> Result<DirFile<R::File>, StoreFault>
        ensures fresh { IfOk result (λ file. IsFresh false id file) }

        ensures cause { IsErrOf result StoreFault.Failed → Rose self.old.faults self.new.faults }
        ensures counts { GoesOn (λ s. s.faults) (λ s. s.given) (λ _. ⊥) self.old self.new }
        ensures kept { ChangesOnly id 0 untold untold }

        // Just a failed call is a fault, and it is one.
        ensures one_fault { CountsFault result self.old.faults self.new.faults }
    {
        let made = self.make(id);
        self.count(made)
    }

    fn append(&mut self, file: &mut DirFile<R::File>, bytes: &[u8]) -> Result<(), StoreFault>
        requires no_tail { HasNoTail false file.old }
        ensures added { OnOk result (IsAppended false file.old bytes.now file.new) }
        ensures fits { OnOk result (file.new.sure < 2 ^ 64) }
        ensures torn { IsErrOf result StoreFault.Failed → IsTornAt false file.old file.old.sure file.new }
        ensures same { IsErrOf result StoreFault.NoMemory → IsSame false file.old file.new }
        ensures unflushed { StaysUnflushed file.old file.new }

        ensures cause { IsErrOf result StoreFault.Failed → Rose self.old.faults self.new.faults }
        ensures counts { GoesOn (λ s. s.faults) (λ s. s.given) (λ _. ⊥) self.old self.new }
        ensures kept { ChangesOnly file.old.id file.old.sealed untold untold }

        // Just a failed call is a fault, and it is one. It takes no memory.
        ensures one_fault { CountsFault result self.old.faults self.new.faults }
        ensures no_memory_taken { result ≢ Err StoreFault.NoMemory }
    {
        let appended = file.append(bytes);
        self.count(appended)
    }

    fn cut(&mut self, file: &mut DirFile<R::File>, len: u64) -> Result<(), Failed>
        requires above { file.old.sealed ≤ len }
        requires sure { len ≤ file.old.sure }
        ensures cut { OnOk result (IsCut false file.old len file.new) }
        ensures torn { OnErr result (IsTornAt false file.old len file.new) }

        ensures cause { OnErr result (Rose self.old.faults self.new.faults) }
        ensures counts { GoesOn (λ s. s.faults) (λ s. s.given) (λ _. ⊥) self.old self.new }
        ensures kept { ChangesOnly file.old.id file.old.sealed untold untold }

        // Just a failed call is a fault, and it is one.
        ensures one_fault { CountsFailure result self.old.faults self.new.faults }
    {
        let cut = file.cut(len);
        self.count_failure(cut)
    }

    /// Waits until the disk has all bytes of the file, and its name.
    fn flush(&mut self, file: &mut DirFile<R::File>) -> Result<(), StoreFault>
        ensures flushed { OnOk result (file.new.flushed ≡ true) }
        ensures unflushed { OnErr result (StaysUnflushed file.old file.new) }
        ensures same { IsSame false file.old file.new }

        ensures cause { IsErrOf result StoreFault.Failed → Rose self.old.faults self.new.faults }
        ensures counts { GoesOn (λ s. s.faults) (λ s. s.given) (λ _. ⊥) self.old self.new }
        ensures kept { ChangesOnly file.old.id file.old.sealed untold untold }

        // Just a failed call is a fault, and it is one.
        ensures one_fault { CountsFault result self.old.faults self.new.faults }
    {
        let flushed = self.sync(file);
        self.count(flushed)
    }

    fn seal(&mut self, file: &mut DirFile<R::File>) -> DirSeal<R::File>
        requires flushed { file.old.flushed ≡ true }
        requires no_tail { HasNoTail false file.old }
        ensures id { result.id ≡ file.old.id }
        ensures len { result.len ≡ file.old.sure }
        ensures sealed { IsSealed false file.old file.new }

        ensures no_fault { self.new.faults ≡ self.old.faults }
        ensures counts { GoesOn (λ s. s.faults) (λ s. s.given) (λ _. ⊥) self.old self.new }
        ensures kept { ChangesOnly file.old.id file.old.sealed untold untold }
        ensures kept_seal { KeepsSeal false result untold }

        // It isn't counted.
        ensures uncounted { self.new ≡ self.old }
    {
        file.seal()
    }

    /// `Failed` where the file has fewer bytes by now, and where they can't be read.
    fn read(&mut self, seal: &DirSeal<R::File>, at: u64, into: &mut [u8]) -> Result<(), Failed>
        requires range { at + length into.old ≤ seal.now.len }

        ensures cause { OnErr result (Rose self.old.faults self.new.faults) }
        ensures gave { OnOk result (GoesOnGiving (λ s. s.faults) (λ s. s.given) (λ _. ⊥) (length into.old) self.old self.new) }
        ensures gave_none { OnErr result (GoesOn (λ s. s.faults) (λ s. s.given) (λ _. ⊥) self.old self.new) }
        ensures kept { untold ≡ untold }

        // Just a failed call is a fault, and it is one.
        ensures one_fault { CountsFailure result self.old.faults self.new.faults }
    {
        let read = seal.read(at, into);
        self.count_read(read, into.len())
    }

    /// `Failed` where the file has fewer bytes by now, and where they can't be read.
    fn read_own(&mut self, file: &DirFile<R::File>, at: u64, into: &mut [u8]) -> Result<(), Failed>
        requires range { at + length into.old ≤ file.now.sure }

        ensures cause { OnErr result (Rose self.old.faults self.new.faults) }
        ensures gave { OnOk result (GoesOnGiving (λ s. s.faults) (λ s. s.given) (λ _. ⊥) (length into.old) self.old self.new) }
        ensures gave_none { OnErr result (GoesOn (λ s. s.faults) (λ s. s.given) (λ _. ⊥) self.old self.new) }
        ensures kept { untold ≡ untold }

        // Just a failed call is a fault, and it is one.
        ensures one_fault { CountsFailure result self.old.faults self.new.faults }
    {
        let read = file.read(at, into);
        self.count_read(read, into.len())
    }

    fn given(&self) -> u64
        ensures { result ≡ self.now.given }
    {
        self.given
    }

    fn faults(&self) -> u64
        ensures { result ≡ self.now.faults }
    {
        self.faults
    }
}
