//! Files in memory.
ghost use Rattle.std.specs.Prelude.{◌≡◌, ℕ, ◌+◌, ◌<◌, ◌≤◌, ◌^◌, true, false, length, slice_range, ◌++◌, ◌⊎◌, IfOk, OnOk, OnErr};

use crate::growing::GrowingBytes;
use crate::mem_seal::MemSeal;
use crate::store::StoredFile;
use hq_value::{FileId, NoMemory};
use std::alloc::Global;
use std::marker::Model;

/// A file in memory. `ready` is the next seal, which a flush made and the next change of the file drops. Its finished
/// groups lie under a seal.
#[derive(Drop)]
pub struct MemFile {
    id: FileId,
    bytes: GrowingBytes,
    sure: u64,
    sealed: u64,
    ready: Option<MemSeal>,
}

impl Model for MemFile {
    ghost use Rattle.std.specs.Prelude.{◌≡◌, ◌≤◌, length, is_some};
    ghost use Rattle.std.specs.Option.{ForSome};
    ghost use Rattle.hq_store.specs.FileStep.{FileState};

    ghost Value = { FileState };

    ghost view = { λ f. record {
      id = f.id;
      bytes = f.bytes.bytes;
      sure = f.sure;
      sealed = f.sealed;
      flushed = is_some f.ready;
    } };

    ghost invariant = { λ f. (f.sure ≤ length f.bytes.bytes) × (f.sealed ≤ f.sure) × (f.bytes.fixed ≤ f.sealed)
        × ForSome f.ready (λ s. (s.id ≡ f.id) × (s.bytes ≡ f.bytes.bytes)) };
}

impl StoredFile for MemFile {
    ghost use Rattle.std.specs.Prelude.{true};

    ghost tells = { true };

    ghost state = { λ f. f };
}

impl MemFile {
    ghost use Rattle.hq_store.specs.FileStep.{FileState, HasNoTail, IsFresh, IsAppended, IsTornAt, IsCut, IsSame, IsSealed, StaysUnflushed};

    pub(crate) fn new(alloc: Global, id: FileId) -> Result<MemFile, NoMemory>
        ensures { IfOk result (λ file. IsFresh true id file) }
    {
        let bytes = GrowingBytes::new(alloc)?;
        Ok(MemFile {
            id,
            bytes,
            sure: 0,
            sealed: 0,
            ready: None,
        })
    }

    // Drops the next seal, which no longer has the file's bytes once these change.
    fn unflush(&mut self)
        ensures { self.new ≡ record self.old { flushed = false } }
    {
        self.ready = None;
    }

    pub(crate) fn append(&mut self, bytes: &[u8]) -> Result<(), NoMemory>
        requires { HasNoTail true self.old }
        ensures added { OnOk result (IsAppended true self.old bytes.now self.new) }
        ensures fits { OnOk result (self.new.sure < 2 ^ 64) }
        ensures same { OnErr result (IsSame true self.old self.new) }
        ensures unflushed { self.new.flushed ≡ false }
    {
        self.unflush();
        self.bytes.append(bytes)?;
        self.sure = self.bytes.len();
        Ok(())
    }

    // An append that failed: the bytes are there, or none where there is no memory for them.
    pub(crate) fn tear(&mut self, bytes: &[u8])
        ensures torn { IsTornAt true self.old self.old.sure self.new }
        ensures exact { (self.new.bytes ≡ self.old.bytes ++ bytes.now) ⊎ (self.new.bytes ≡ self.old.bytes) }
    {
        self.unflush();
        let _ = self.bytes.append(bytes);
    }

    pub(crate) fn cut(&mut self, len: u64)
        requires kept { self.old.sealed ≤ len }
        requires sure { len ≤ self.old.sure }
        ensures { IsCut true self.old len self.new }
    {
        self.unflush();
        self.bytes.cut(len);
        self.sure = len;
    }

    // A cut that failed: the bytes past `len` are still there, and no longer sure.
    pub(crate) fn miss_cut(&mut self, len: u64)
        requires kept { self.old.sealed ≤ len }
        requires sure { len ≤ self.old.sure }
        ensures torn { IsTornAt true self.old len self.new }
        ensures bytes { self.new.bytes ≡ self.old.bytes }
    {
        self.unflush();
        self.sure = len;
    }

    pub(crate) fn flush(&mut self) -> Result<(), NoMemory>
        ensures flushed { OnOk result (self.new.flushed ≡ true) }
        ensures unflushed { OnErr result (self.new.flushed ≡ false) }
        ensures same { IsSame true self.old self.new }
    {
        self.unflush();
        self.ready = Some(self.bytes.share(self.id, self.sealed)?);
        Ok(())
    }

    pub(crate) fn seal(&mut self) -> MemSeal
        requires flushed { self.old.flushed ≡ true }
        requires no_tail { HasNoTail true self.old }
        ensures id { result.id ≡ self.old.id }
        ensures bytes { result.bytes ≡ self.old.bytes }
        ensures sealed { IsSealed true self.old self.new }
    {
        self.sealed = self.sure;
        self.ready.take().unwrap()
    }

    pub(crate) fn read(&self, at: u64, into: &mut [u8])
        requires { at + length into.old ≤ self.now.sure }
        ensures { into.new ≡ slice_range self.now.bytes at (at + length into.old) }
    {
        self.bytes.read(at, into);
    }
}
