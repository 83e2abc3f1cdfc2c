//! A store in memory that tells nothing.
ghost use Rattle.std.specs.Prelude.{◌≡◌, ◌≢◌, ◌+◌, ◌-◌, ◌<◌, ◌≤◌, ◌^◌, false, true, Err, IfOk, IsErr, IsTrue, OnOk, OnErr, IsErrOf, IsOk, length, slice_range, slice_set, nat_le, if◌then◌else◌};
ghost use Rattle.hq_value.specs.Causes.{Rose, GoesOn, GoesOnGiving};
ghost use Rattle.hq_store.specs.FileStep.{HasNoTail, IsFresh, IsAppended, IsTornAt, IsCut, IsSame, IsSealed, StaysUnflushed};
ghost use Rattle.hq_store.specs.Kept.{ChangesOnly, KeepsSeal, untold};
ghost use Rattle.hq_untold.specs.Reads.{given_by};

use crate::file::{UntoldFile, UntoldSeal};
use hq_store::{MemStore, Store, StoreFault};
use hq_value::{Failed, FileId};
use std::alloc::Global;
use std::marker::Model;

/// What the reads of a store give: what was written, zeros, or what was written with another byte at one place of each
/// file.
#[derive(Clone, Copy, Debug, PartialEq, Eq)]
pub enum Reads {
    Written,
    Zeros,
    ByteAt { at: u64, byte: u8 },
}

/// A store in memory whose files and seals tell nothing, so that its reads may give what they like. No call of it fails.
#[derive(Drop)]
pub struct UntoldStore {
    store: MemStore,
    reads: Reads,
}

impl Model for UntoldStore {
    ghost use Rattle.std.specs.Prelude.{◌≡◌, []};
    ghost use Rattle.hq_untold.specs.Reads.{UntoldState};

    ghost Value = { UntoldState };

    ghost view = { λ s. record { reads = s.reads; faults = s.store.faults; given = s.store.given } };

    ghost invariant = { λ s. s.store.plan ≡ [] };
}

impl UntoldStore {
    /// A store that has given no byte.
    pub fn new(alloc: Global, reads: Reads) -> UntoldStore
        ensures { result ≡ record { reads = reads; faults = 0; given = 0 } }
    {
        UntoldStore {
            store: MemStore::new(alloc, Vec::new(alloc)),
            reads,
        }
    }
}

// What a read from `at` on gives in place of what was written.
fn change(reads: Reads, at: u64, into: &mut [u8])
    ensures { into.new ≡ given_by reads at into.old }
{
    match reads {
        Reads::Written => {}
        Reads::Zeros => into.fill(0),
        Reads::ByteAt { at: place, byte } => set_from(into, at, place, byte),
    }
}

// Sets the byte at a place, where the bytes, which begin at `at`, have that place.
fn set_from(into: &mut [u8], at: u64, place: u64, byte: u8)
    ensures { into.new ≡ (if nat_le at place then slice_set into.old (place - at) byte else into.old) }
{
    if at <= place {
        set(into, (place - at) as usize, byte);
    }
}

fn set(into: &mut [u8], place: usize, byte: u8)
    ensures { into.new ≡ slice_set into.old place byte }
{
    if place < into.len() {
        into[place] = byte;
    }
}

impl Store for UntoldStore {
    type File = UntoldFile;

    type Seal = UntoldSeal;

    ghost faults = { λ s. s.faults };

    ghost given = { λ s. s.given };

    ghost sound = { λ s. Unit {0} };

    ghost kept = { λ s. untold };

    fn create(&mut self, id: FileId) -> Result<UntoldFile, StoreFault>
        ensures fresh { IfOk result (λ file. IsFresh false id file) }

        ensures cause { IsErrOf result StoreFault.Failed → Rose self.old.faults self.new.faults }
        ensures counts { GoesOn (λ s. s.faults) (λ s. s.given) (λ s. Unit {0}) self.old self.new }
        ensures kept { ChangesOnly id 0 untold untold }

        // It never fails, and the reads stay.
        ensures never_fails { result ≢ Err StoreFault.Failed }
        ensures reads { self.new.reads ≡ self.old.reads }
    {
        let file = self.store.create(id)?;
        Ok(UntoldFile { file })
    }

    fn append(&mut self, file: &mut UntoldFile, bytes: &[u8]) -> Result<(), StoreFault>
        requires no_tail { HasNoTail false file.old }
        ensures added { OnOk result (IsAppended false file.old bytes.now file.new) }
        ensures fits { OnOk result (file.new.sure < 2 ^ 64) }
        ensures torn { IsErrOf result StoreFault.Failed → IsTornAt false file.old file.old.sure file.new }
        ensures same { IsErrOf result StoreFault.NoMemory → IsSame false file.old file.new }
        ensures unflushed { StaysUnflushed file.old file.new }

        ensures cause { IsErrOf result StoreFault.Failed → Rose self.old.faults self.new.faults }
        ensures counts { GoesOn (λ s. s.faults) (λ s. s.given) (λ s. Unit {0}) self.old self.new }
        ensures kept { ChangesOnly file.old.id file.old.sealed untold untold }

        // It never fails, and the reads stay.
        ensures never_fails { result ≢ Err StoreFault.Failed }
        ensures reads { self.new.reads ≡ self.old.reads }
    {
        self.store.append(&mut file.file, bytes)
    }

    fn cut(&mut self, file: &mut UntoldFile, len: u64) -> Result<(), Failed>
        requires above { file.old.sealed ≤ len }
        requires sure { len ≤ file.old.sure }
        ensures cut { OnOk result (IsCut false file.old len file.new) }
        ensures torn { OnErr result (IsTornAt false file.old len file.new) }

        ensures cause { OnErr result (Rose self.old.faults self.new.faults) }
        ensures counts { GoesOn (λ s. s.faults) (λ s. s.given) (λ s. Unit {0}) self.old self.new }
        ensures kept { ChangesOnly file.old.id file.old.sealed untold untold }

        // It never fails, and the reads stay.
        ensures never_fails { IsOk result }
        ensures reads { self.new.reads ≡ self.old.reads }
    {
        self.store.cut(&mut file.file, len)
    }

    fn flush(&mut self, file: &mut UntoldFile) -> Result<(), StoreFault>
        ensures flushed { OnOk result (file.new.flushed ≡ true) }
        ensures unflushed { OnErr result (StaysUnflushed file.old file.new) }
        ensures same { IsSame false file.old file.new }

        ensures cause { IsErrOf result StoreFault.Failed → Rose self.old.faults self.new.faults }
        ensures counts { GoesOn (λ s. s.faults) (λ s. s.given) (λ s. Unit {0}) self.old self.new }
        ensures kept { ChangesOnly file.old.id file.old.sealed untold untold }

        // It never fails, and the reads stay.
        ensures never_fails { result ≢ Err StoreFault.Failed }
        ensures reads { self.new.reads ≡ self.old.reads }
    {
        self.store.flush(&mut file.file)
    }

    fn seal(&mut self, file: &mut UntoldFile) -> UntoldSeal
        requires flushed { file.old.flushed ≡ true }
        requires no_tail { HasNoTail false file.old }
        ensures id { result.id ≡ file.old.id }
        ensures len { length result.bytes ≡ file.old.sure }
        ensures sealed { IsSealed false file.old file.new }

        ensures no_fault { self.new.faults ≡ self.old.faults }
        ensures counts { GoesOn (λ s. s.faults) (λ s. s.given) (λ s. Unit {0}) self.old self.new }
        ensures kept { ChangesOnly file.old.id file.old.sealed untold untold }
        ensures kept_seal { KeepsSeal false (record { id = result.id; bytes = result.bytes; len = length result.bytes }) untold }

        // It has the bytes that were written, and the reads stay.
        ensures written { result.bytes ≡ file.old.bytes }
        ensures reads { self.new.reads ≡ self.old.reads }
    {
        let seal = self.store.seal(&mut file.file);
        UntoldSeal { seal }
    }

    fn read(&mut self, seal: &UntoldSeal, at: u64, into: &mut [u8]) -> Result<(), Failed>
        requires range { at + length into.old ≤ length seal.now.bytes }

        ensures cause { OnErr result (Rose self.old.faults self.new.faults) }
        ensures gave { OnOk result (GoesOnGiving (λ s. s.faults) (λ s. s.given) (λ s. Unit {0}) (length into.old) self.old self.new) }
        ensures gave_none { OnErr result (GoesOn (λ s. s.faults) (λ s. s.given) (λ s. Unit {0}) self.old self.new) }
        ensures kept { untold ≡ untold }

        // It never fails, and gives what the store's reads give of what was written.
        ensures never_fails { IsOk result }
        ensures changed { into.new ≡ given_by self.old.reads at (slice_range seal.now.bytes at (at + length into.old)) }
        ensures reads { self.new.reads ≡ self.old.reads }
    {
        self.store.read(&seal.seal, at, into)?;
        change(self.reads, at, into);
        Ok(())
    }

    fn read_own(&mut self, file: &UntoldFile, at: u64, into: &mut [u8]) -> Result<(), Failed>
        requires range { at + length into.old ≤ file.now.sure }

        ensures cause { OnErr result (Rose self.old.faults self.new.faults) }
        ensures gave { OnOk result (GoesOnGiving (λ s. s.faults) (λ s. s.given) (λ s. Unit {0}) (length into.old) self.old self.new) }
        ensures gave_none { OnErr result (GoesOn (λ s. s.faults) (λ s. s.given) (λ s. Unit {0}) self.old self.new) }
        ensures kept { untold ≡ untold }

        // It never fails, and gives what the store's reads give of what was written.
        ensures never_fails { IsOk result }
        ensures changed { into.new ≡ given_by self.old.reads at (slice_range file.now.bytes at (at + length into.old)) }
        ensures reads { self.new.reads ≡ self.old.reads }
    {
        self.store.read_own(&file.file, at, into)?;
        change(self.reads, at, into);
        Ok(())
    }

    fn given(&self) -> u64
        ensures { result ≡ self.now.given }
    {
        self.store.given()
    }

    fn faults(&self) -> u64
        ensures { result ≡ self.now.faults }
    {
        self.store.faults()
    }
}
