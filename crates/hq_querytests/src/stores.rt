//! A store of which one read fails.
ghost use Rattle.std.specs.Prelude.{◌≡◌, ◌≤◌, OnOk, OnErr};
ghost use Rattle.hq_value.specs.Causes.{Rose};

use hq_store::{Store, StoreFault};
use hq_untold::{Reads, UntoldFile, UntoldSeal, UntoldStore};
use hq_value::{Failed, FileId};
use std::alloc::Global;

/// A client of a store in memory that tells nothing. Its read of one number fails, counted from 1, and no other call.
#[derive(Drop)]
pub(crate) struct FailingStore {
    store: UntoldStore,
    fails: u64,
    reads: u64,
    faults: u64,
}

impl FailingStore {
    /// A client that has read nothing. None of its reads has the number 0.
    pub(crate) fn new(alloc: Global, reads: Reads, fails: u64) -> FailingStore {
        FailingStore {
            store: UntoldStore::new(alloc, reads),
            fails,
            reads: 0,
            faults: 0,
        }
    }

    // Counts a read, and fails where it is the one.
    fn count(&mut self) -> Result<(), Failed>
        ensures store { self.new.store ≡ self.old.store }
        ensures goes_on { self.old.faults ≤ self.new.faults }
        ensures same { OnOk result (self.new.faults ≡ self.old.faults) }
        ensures cause { OnErr result (Rose self.old.faults self.new.faults) }
    {
        self.reads = self.reads.saturating_add(1);
        if self.reads == self.fails {
            self.faults = self.faults.saturating_add(1);
            return Err(Failed);
        }
        Ok(())
    }
}

impl Store for FailingStore {
    ghost use Rattle.hq_store.specs.Kept.{untold};

    type File = UntoldFile;

    type Seal = UntoldSeal;

    ghost faults = { λ s. s.faults };

    ghost given = { λ s. s.store.given };

    ghost sound = { λ s. ⊥ };

    ghost kept = { λ s. untold };

    fn create(&mut self, id: FileId) -> Result<UntoldFile, StoreFault> {
        self.store.create(id)
    }

    fn append(&mut self, file: &mut UntoldFile, bytes: &[u8]) -> Result<(), StoreFault> {
        self.store.append(file, bytes)
    }

    fn cut(&mut self, file: &mut UntoldFile, len: u64) -> Result<(), Failed> {
        self.store.cut(file, len)
    }

    fn flush(&mut self, file: &mut UntoldFile) -> Result<(), StoreFault> {
        self.store.flush(file)
    }

    fn seal(&mut self, file: &mut UntoldFile) -> UntoldSeal {
        self.store.seal(file)
    }

    fn read(&mut self, seal: &UntoldSeal, at: u64, into: &mut [u8]) -> Result<(), Failed> {
        match self.count() {
            Ok(()) => self.store.read(seal, at, into),
            Err(fault) => Err(fault),
        }
    }

    fn read_own(&mut self, file: &UntoldFile, at: u64, into: &mut [u8]) -> Result<(), Failed> {
        match self.count() {
            Ok(()) => self.store.read_own(file, at, into),
            Err(fault) => Err(fault),
        }
    }

    fn given(&self) -> u64 {
        self.store.given()
    }

    fn faults(&self) -> u64 {
        self.faults
    }
}
