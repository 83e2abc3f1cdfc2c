//! What a store, its files and its seals promise.
ghost use Rattle.std.specs.Prelude.{◌≡◌, ℕ, ◌+◌, ◌<◌, ◌≤◌, ◌^◌, Bool, true, length, slice_range, IsTrue, IfOk, OnOk, OnErr, IsErrOf};
ghost use Rattle.hq_value.specs.Causes.{Rose, GoesOn, GoesOnGiving};
ghost use Rattle.hq_store.specs.FileStep.{FileState, SealState, HasNoTail, IsFresh, IsAppended, IsTornAt, IsCut, IsSame, IsSealed, StaysUnflushed};
ghost use Rattle.hq_store.specs.Kept.{Kept, ChangesOnly, KeepsSeal};

use hq_value::{Failed, FileId, NoMemory};

/// What a store's call may answer in place of its result.
#[derive(Clone, Copy, Debug, PartialEq, Eq)]
pub enum StoreFault {
    Failed,
    NoMemory,
}

impl From<NoMemory> for StoreFault {
    ghost use Rattle.std.specs.Prelude.{◌≡◌};
    ghost use Rattle.hq_store.specs.declared.store.StoreFault.{StoreFault};

    ghost from_gives = { λ _ fault. fault ≡ StoreFault.NoMemory };

    fn from(_: NoMemory) -> Self {
        StoreFault::NoMemory
    }
}

/// A file of a store. It has the id with which it was made and bytes, of which the first `sure` are known to be there
/// and the first `sealed`, at most `sure`, lie under a seal. Whether it tells its bytes is one constant of the type.
pub trait StoredFile: Drop {
    ghost tells: { Bool };

    ghost state: { Self → FileState };
}

/// The bytes that a file had when it was sealed, and the file's id. They stay, whatever becomes of the file. Whether a
/// seal tells the bytes is one constant of the type.
pub trait SealCopy: Sized + Drop {
    ghost tells: { Bool };

    ghost state: { Self → SealState };

    /// A seal of the same bytes of the same file.
    fn copy(&self) -> Result<Self, NoMemory>
        ensures { IfOk result (λ copy. state copy ≡ state self.now) };

    /// How many bytes it has.
    fn len(&self) -> u64
        ensures { result ≡ (state self.now).len };

    ghost told_len: { (s : Self) → IsTrue tells → (state s).len ≡ length (state s).bytes };
}

/// One client of a store. Every client of one store can use every file and seal of it. A call answers `Failed`
/// only where it raised the count of faults. A store may tell that it is sound: then no call raises that count,
/// and it stays sound. It may tell what it keeps of each file over a crash: then a call changes this of its own file
/// alone, and not below the sealed bytes, and the bytes under a seal are kept.
pub trait Store: Drop {
    type File: StoredFile;

    type Seal: SealCopy;

    ghost faults: { Self → ℕ };

    ghost given: { Self → ℕ };

    ghost sound: { Self → Type 0 };

    ghost kept: { Self → Kept };

    /// A new file of that id with no bytes.
    fn create(&mut self, id: FileId) -> Result<Self::File, StoreFault>
        ensures fresh { IfOk result (λ file. IsFresh Self.File.tells id (Self.File.state file)) }

        ensures cause { IsErrOf result StoreFault.Failed → Rose (faults self.old) (faults self.new) }
        ensures counts { GoesOn faults given sound self.old self.new }
        ensures kept { ChangesOnly id 0 (kept self.old) (kept self.new) };

    /// Adds bytes at the end of a file that has just its sure bytes. `Failed` leaves the old bytes and then any
    /// bytes, `sure` being as before. `NoMemory` leaves all as before, but the file may no longer be flushed.
    fn append(&mut self, file: &mut Self::File, bytes: &[u8]) -> Result<(), StoreFault>
        requires no_tail { HasNoTail Self.File.tells (Self.File.state file.old) }
        ensures added { OnOk result (IsAppended Self.File.tells (Self.File.state file.old) bytes.now (Self.File.state file.new)) }
        ensures fits { OnOk result ((Self.File.state file.new).sure < 2 ^ 64) }
        ensures torn { IsErrOf result StoreFault.Failed
            → IsTornAt Self.File.tells (Self.File.state file.old) (Self.File.state file.old).sure (Self.File.state file.new) }
        ensures same { IsErrOf result StoreFault.NoMemory
            → IsSame Self.File.tells (Self.File.state file.old) (Self.File.state file.new) }
        ensures unflushed { StaysUnflushed (Self.File.state file.old) (Self.File.state file.new) }

        ensures cause { IsErrOf result StoreFault.Failed → Rose (faults self.old) (faults self.new) }
        ensures counts { GoesOn faults given sound self.old self.new }
        ensures kept { ChangesOnly (Self.File.state file.old).id (Self.File.state file.old).sealed (kept self.old) (kept self.new) };

    /// Cuts a file to its first `len` bytes. `Failed` leaves those and then any bytes. `sure` is `len` in both
    /// cases.
    fn cut(&mut self, file: &mut Self::File, len: u64) -> Result<(), Failed>
        requires above { (Self.File.state file.old).sealed ≤ len }
        requires sure { len ≤ (Self.File.state file.old).sure }
        ensures cut { OnOk result (IsCut Self.File.tells (Self.File.state file.old) len (Self.File.state file.new)) }
        ensures torn { OnErr result (IsTornAt Self.File.tells (Self.File.state file.old) len (Self.File.state file.new)) }

        ensures cause { OnErr result (Rose (faults self.old) (faults self.new)) }
        ensures counts { GoesOn faults given sound self.old self.new }
        ensures kept { ChangesOnly (Self.File.state file.old).id (Self.File.state file.old).sealed (kept self.old) (kept self.new) };

    /// Makes a file ready to be sealed, until its next change. No byte changes.
    fn flush(&mut self, file: &mut Self::File) -> Result<(), StoreFault>
        ensures flushed { OnOk result ((Self.File.state file.new).flushed ≡ true) }
        ensures unflushed { OnErr result (StaysUnflushed (Self.File.state file.old) (Self.File.state file.new)) }
        ensures same { IsSame Self.File.tells (Self.File.state file.old) (Self.File.state file.new) }

        ensures cause { IsErrOf result StoreFault.Failed → Rose (faults self.old) (faults self.new) }
        ensures counts { GoesOn faults given sound self.old self.new }
        ensures kept { ChangesOnly (Self.File.state file.old).id (Self.File.state file.old).sealed (kept self.old) (kept self.new) };

    /// Seals the bytes of a file that is flushed and has just its sure bytes. It can't fail.
    fn seal(&mut self, file: &mut Self::File) -> Self::Seal
        requires flushed { (Self.File.state file.old).flushed ≡ true }
        requires no_tail { HasNoTail Self.File.tells (Self.File.state file.old) }
        ensures id { (Self.Seal.state result).id ≡ (Self.File.state file.old).id }
        ensures bytes { IsTrue Self.File.tells → IsTrue Self.Seal.tells
            → (Self.Seal.state result).bytes ≡ (Self.File.state file.old).bytes }
        ensures len { (Self.Seal.state result).len ≡ (Self.File.state file.old).sure }
        ensures sealed { IsSealed Self.File.tells (Self.File.state file.old) (Self.File.state file.new) }

        ensures no_fault { faults self.new ≡ faults self.old }
        ensures counts { GoesOn faults given sound self.old self.new }
        ensures kept { ChangesOnly (Self.File.state file.old).id (Self.File.state file.old).sealed (kept self.old) (kept self.new) }
        ensures kept_seal { KeepsSeal Self.Seal.tells (Self.Seal.state result) (kept self.new) };

    /// Fills `into` with a seal's bytes from `at` on.
    fn read(&mut self, seal: &Self::Seal, at: u64, into: &mut [u8]) -> Result<(), Failed>
        requires range { at + length into.old ≤ (Self.Seal.state seal.now).len }
        ensures bytes { OnOk result (IsTrue Self.Seal.tells
            → into.new ≡ slice_range (Self.Seal.state seal.now).bytes at (at + length into.old)) }

        ensures cause { OnErr result (Rose (faults self.old) (faults self.new)) }
        ensures gave { OnOk result (GoesOnGiving faults given sound (length into.old) self.old self.new) }
        ensures gave_none { OnErr result (GoesOn faults given sound self.old self.new) }
        ensures kept { kept self.new ≡ kept self.old };

    /// Fills `into` with a file's sure bytes from `at` on.
    fn read_own(&mut self, file: &Self::File, at: u64, into: &mut [u8]) -> Result<(), Failed>
        requires range { at + length into.old ≤ (Self.File.state file.now).sure }
        ensures bytes { OnOk result (IsTrue Self.File.tells
            → into.new ≡ slice_range (Self.File.state file.now).bytes at (at + length into.old)) }

        ensures cause { OnErr result (Rose (faults self.old) (faults self.new)) }
        ensures gave { OnOk result (GoesOnGiving faults given sound (length into.old) self.old self.new) }
        ensures gave_none { OnErr result (GoesOn faults given sound self.old self.new) }
        ensures kept { kept self.new ≡ kept self.old };

    /// How many bytes its reads have given.
    fn given(&self) -> u64
        ensures { result ≡ given self.now };

    /// How many faults it has met.
    fn faults(&self) -> u64
        ensures { result ≡ faults self.now };
}
