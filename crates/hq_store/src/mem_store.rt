//! A store in memory, whose faults are planned.
ghost use Rattle.std.specs.Prelude.{◌≡◌, ℕ, ◌+◌, ◌<◌, ◌≤◌, ◌^◌, ◌++◌, ◌↔◌, ◌⊎◌, true, length, take, slice_range, IfOk, IfSome, IsSome, IsErr, OnOk, OnErr, IsErrOf};
ghost use Rattle.hq_value.specs.Causes.{Rose, GoesOn, GoesOnGiving, raised};
ghost use Rattle.hq_store.specs.Kept.{ChangesOnly, KeepsSeal, untold};

use crate::mem_file::MemFile;
use crate::mem_seal::MemSeal;
use crate::store::{Store, StoreFault};
use hq_value::{Failed, FileId};
use std::alloc::Global;
use std::marker::Model;

/// A call that is planned to fail. Calls of `create`, `append`, `cut`, `flush`, `read` and `read_own` are counted
/// from 1. An append that fails adds its first `tail` bytes, or all of them where there are fewer; where there is no
/// memory for these it adds none, and fails all the same.
#[derive(Clone, Copy, Debug, PartialEq, Eq)]
pub struct Planned {
    pub call: u64,
    pub tail: u32,
}

/// A client of the store in memory. Its planned calls fail and no others do. A file holds its bytes, so all of
/// these are clients of one store.
#[derive(Drop)]
pub struct MemStore {
    alloc: Global,
    plan: Vec<Planned>,
    calls: u64,
    faults: u64,
    given: u64,
}

impl Model for MemStore {
    ghost use Rattle.hq_store.specs.MemPlan.{MemState};

    ghost Value = { MemState };

    ghost view = { λ s. record { plan = s.plan.items; calls = s.calls; faults = s.faults; given = s.given } };
}

impl MemStore {
    ghost use Rattle.hq_store.specs.MemPlan.{MemState, next_tail, IsCounted, NoFailureLeft};

    /// A client that has made no call. The first of the planned calls of one number counts.
    pub fn new(alloc: Global, plan: Vec<Planned>) -> MemStore
        ensures { result ≡ record { plan = plan.items; calls = 0; faults = 0; given = 0 } }
    {
        MemStore {
            alloc,
            plan,
            calls: 0,
            faults: 0,
            given: 0,
        }
    }

    // What the next call leaves where it is planned to fail.
    fn next_tail(&self) -> Option<u32>
        ensures { result ≡ next_tail self.now }
    {
        let call = self.calls.saturating_add(1);
        self.plan
            .iter()
            .find(|planned| planned.call == call)
            .map(|planned| planned.tail)
    }

    // Counts a call. A planned one is a fault, and has its tail.
    fn count(&mut self) -> Option<u32>
        ensures tail { result ≡ next_tail self.old }
        ensures counted { IsCounted self.old self.new }
        ensures given { self.new.given ≡ self.old.given }

        ensures cause { IsSome result → Rose self.old.faults self.new.faults }
        ensures later { self.old.faults ≤ self.new.faults }
        ensures steady { NoFailureLeft self.old → self.new.faults ≡ self.old.faults }
        ensures stays_sound { NoFailureLeft self.old → NoFailureLeft self.new }
    {
        let tail = self.next_tail();
        self.calls = self.calls.saturating_add(1);
        if tail.is_some() {
            self.faults = self.faults.saturating_add(1);
        }
        tail
    }

    fn give(&mut self, n: usize)
        ensures { self.new ≡ record self.old { given = raised self.old.given n } }
    {
        self.given = self.given.saturating_add(n as u64);
    }
}

impl Store for MemStore {
    ghost use Rattle.hq_store.specs.FileStep.{HasNoTail, IsFresh, IsAppended, IsTornAt, IsCut, IsSame, IsSealed, StaysUnflushed};
    ghost use Rattle.hq_store.specs.MemPlan.{next_tail, IsCounted, NoFailureLeft};

    type File = MemFile;

    type Seal = MemSeal;

    ghost faults = { λ s. s.faults };

    ghost given = { λ s. s.given };

    ghost sound = { NoFailureLeft };

    ghost kept = { λ s. untold };

    fn create(&mut self, id: FileId) -> Result<MemFile, StoreFault>
        ensures fresh { IfOk result (λ file. IsFresh true id file) }

        ensures cause { IsErrOf result StoreFault.Failed → Rose self.old.faults self.new.faults }
        ensures counts { GoesOn (λ s. s.faults) (λ s. s.given) NoFailureLeft self.old self.new }
        ensures kept { ChangesOnly id 0 untold untold }

        // Just a planned call fails.
        ensures counted { IsCounted self.old self.new }
        ensures planned { IsErrOf result StoreFault.Failed ↔ IsSome (next_tail self.old) }
    {
        match self.count() {
            Some(_) => Err(StoreFault::Failed),
            None => Ok(MemFile::new(self.alloc, id)?),
        }
    }

    fn append(&mut self, file: &mut MemFile, bytes: &[u8]) -> Result<(), StoreFault>
        requires no_tail { HasNoTail true file.old }
        ensures added { OnOk result (IsAppended true file.old bytes.now file.new) }
        ensures fits { OnOk result (file.new.sure < 2 ^ 64) }
        ensures torn { IsErrOf result StoreFault.Failed → IsTornAt true file.old file.old.sure file.new }
        ensures same { IsErrOf result StoreFault.NoMemory → IsSame true file.old file.new }
        ensures unflushed { StaysUnflushed file.old file.new }

        ensures cause { IsErrOf result StoreFault.Failed → Rose self.old.faults self.new.faults }
        ensures counts { GoesOn (λ s. s.faults) (λ s. s.given) NoFailureLeft self.old self.new }
        ensures kept { ChangesOnly file.old.id file.old.sealed untold untold }

        // Just a planned call fails, and adds its tail, or nothing without memory for it.
        ensures counted { IsCounted self.old self.new }
        ensures planned { IsErrOf result StoreFault.Failed ↔ IsSome (next_tail self.old) }
        ensures tail { IsErrOf result StoreFault.Failed → IfSome (next_tail self.old) (λ tail.
            (file.new.bytes ≡ file.old.bytes ++ take tail bytes.now) ⊎ (file.new.bytes ≡ file.old.bytes)) }
    {
        match self.count() {
            Some(tail) => {
                file.tear(first(bytes, tail));
                Err(StoreFault::Failed)
            }
            None => {
                file.append(bytes)?;
                Ok(())
            }
        }
    }

    fn cut(&mut self, file: &mut MemFile, len: u64) -> Result<(), Failed>
        requires above { file.old.sealed ≤ len }
        requires sure { len ≤ file.old.sure }
        ensures cut { OnOk result (IsCut true file.old len file.new) }
        ensures torn { OnErr result (IsTornAt true file.old len file.new) }

        ensures cause { OnErr result (Rose self.old.faults self.new.faults) }
        ensures counts { GoesOn (λ s. s.faults) (λ s. s.given) NoFailureLeft self.old self.new }
        ensures kept { ChangesOnly file.old.id file.old.sealed untold untold }

        // Just a planned call fails, and changes no byte.
        ensures counted { IsCounted self.old self.new }
        ensures planned { IsErr result ↔ IsSome (next_tail self.old) }
        ensures unchanged { OnErr result (file.new.bytes ≡ file.old.bytes) }
    {
        match self.count() {
            Some(_) => {
                file.miss_cut(len);
                Err(Failed)
            }
            None => {
                file.cut(len);
                Ok(())
            }
        }
    }

    fn flush(&mut self, file: &mut MemFile) -> Result<(), StoreFault>
        ensures flushed { OnOk result (file.new.flushed ≡ true) }
        ensures unflushed { OnErr result (StaysUnflushed file.old file.new) }
        ensures same { IsSame true file.old file.new }

        ensures cause { IsErrOf result StoreFault.Failed → Rose self.old.faults self.new.faults }
        ensures counts { GoesOn (λ s. s.faults) (λ s. s.given) NoFailureLeft self.old self.new }
        ensures kept { ChangesOnly file.old.id file.old.sealed untold untold }

        // Just a planned call fails.
        ensures counted { IsCounted self.old self.new }
        ensures planned { IsErrOf result StoreFault.Failed ↔ IsSome (next_tail self.old) }
    {
        match self.count() {
            Some(_) => Err(StoreFault::Failed),
            None => {
                file.flush()?;
                Ok(())
            }
        }
    }

    fn seal(&mut self, file: &mut MemFile) -> MemSeal
        requires flushed { file.old.flushed ≡ true }
        requires no_tail { HasNoTail true file.old }
        ensures id { result.id ≡ file.old.id }
        ensures bytes { result.bytes ≡ file.old.bytes }
        ensures len { length result.bytes ≡ file.old.sure }
        ensures sealed { IsSealed true file.old file.new }

        ensures no_fault { self.new.faults ≡ self.old.faults }
        ensures counts { GoesOn (λ s. s.faults) (λ s. s.given) NoFailureLeft self.old self.new }
        ensures kept { ChangesOnly file.old.id file.old.sealed untold untold }
        ensures kept_seal { KeepsSeal true (record { id = result.id; bytes = result.bytes; len = length result.bytes }) untold }

        // It isn't counted.
        ensures uncounted { self.new ≡ self.old }
    {
        file.seal()
    }

    fn read(&mut self, seal: &MemSeal, at: u64, into: &mut [u8]) -> Result<(), Failed>
        requires range { at + length into.old ≤ length seal.now.bytes }
        ensures bytes { OnOk result (into.new ≡ slice_range seal.now.bytes at (at + length into.old)) }

        ensures cause { OnErr result (Rose self.old.faults self.new.faults) }
        ensures gave { OnOk result (GoesOnGiving (λ s. s.faults) (λ s. s.given) NoFailureLeft (length into.old) self.old self.new) }
        ensures gave_none { OnErr result (GoesOn (λ s. s.faults) (λ s. s.given) NoFailureLeft self.old self.new) }
        ensures kept { untold ≡ untold }

        // Just a planned call fails, and gives nothing.
        ensures counted { IsCounted self.old self.new }
        ensures planned { IsErr result ↔ IsSome (next_tail self.old) }
        ensures unchanged { OnErr result (into.new ≡ into.old) }
    {
        match self.count() {
            Some(_) => Err(Failed),
            None => {
                seal.read(at, into);
                self.give(into.len());
                Ok(())
            }
        }
    }

    fn read_own(&mut self, file: &MemFile, at: u64, into: &mut [u8]) -> Result<(), Failed>
        requires range { at + length into.old ≤ file.now.sure }
        ensures bytes { OnOk result (into.new ≡ slice_range file.now.bytes at (at + length into.old)) }

        ensures cause { OnErr result (Rose self.old.faults self.new.faults) }
        ensures gave { OnOk result (GoesOnGiving (λ s. s.faults) (λ s. s.given) NoFailureLeft (length into.old) self.old self.new) }
        ensures gave_none { OnErr result (GoesOn (λ s. s.faults) (λ s. s.given) NoFailureLeft self.old self.new) }
        ensures kept { untold ≡ untold }

        // Just a planned call fails, and gives nothing.
        ensures counted { IsCounted self.old self.new }
        ensures planned { IsErr result ↔ IsSome (next_tail self.old) }
        ensures unchanged { OnErr result (into.new ≡ into.old) }
    {
        match self.count() {
            Some(_) => Err(Failed),
            None => {
                file.read(at, into);
                self.give(into.len());
                Ok(())
            }
        }
    }

    fn given(&self) -> u64
        ensures { result ≡ self.now.given }
    {
        self.given
    }

    fn faults(&self) -> u64
        ensures { result ≡ self.now.faults }
    {
        self.faults
    }
}

// The first `tail` bytes, or all where there are fewer.
fn first(bytes: &[u8], tail: u32) -> &[u8]
    ensures { result.now ≡ take tail bytes.now }
{
    let tail = bytes.len().min(tail as usize);
    &bytes[..tail]
}
