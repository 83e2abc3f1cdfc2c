//! The file of one bucket of a lane.
ghost use Rattle.std.specs.Prelude.{◌≡◌, ◌++◌, ◌<◌, ◌≤◌, true, false, [], None, length, option_map, IsTrue, IfSome, IsNone, OnOk, OnErr, IsErrOf};
ghost use Rattle.std.specs.Option.{ForSome};
ghost use Rattle.hq_value.specs.Causes.{Rose, GoesOn};

use crate::lane::OwnFile;
use crate::range::Readable;
use hq_store::{SealCopy, Store, StoreFault, StoredFile};
use hq_value::{Failed, FileId};
use std::marker::Model;

/// The file of one bucket, which has this id. `base` bytes of it are committed, and `good` bytes are whole blocks. Where it is torn
/// others may follow those.
#[derive(Drop)]
pub(crate) struct BucketFile<F: StoredFile, Z: SealCopy> {
    id: FileId,
    file: Option<F>,
    base: u64,
    good: u64,
    torn: bool,
    fresh: Option<Z>,
}

impl<F: StoredFile, Z: SealCopy> Model for BucketFile<F, Z> {
    ghost use Rattle.std.specs.Prelude.{option_map};
    ghost use Rattle.hq_lane.specs.BucketFiles.{BucketState, IsSound};

    ghost Value = { BucketState };

    ghost view = { λ p. record {
      id = p.id;
      file = option_map F.state p.file;
      base = p.base;
      good = p.good;
      torn = p.torn;
      fresh = option_map Z.state p.fresh;
    } };

    ghost invariant = { λ p. IsSound F.tells Z.tells (record {
      id = p.id;
      file = option_map F.state p.file;
      base = p.base;
      good = p.good;
      torn = p.torn;
      fresh = option_map Z.state p.fresh;
    }) };
}

impl<F: StoredFile, Z: SealCopy> BucketFile<F, Z> {
    ghost use Rattle.hq_store.specs.FileStep.{HasNoTail};
    ghost use Rattle.hq_lane.specs.BucketFiles.{no_file, found_file, is_clean, file_bytes, base_bytes, good_bytes, IsGrown, IsCutBack, IsTornBack, KeepsBase, StaysIfClean, KeepsBytes, IsFlushed, IsSealed, IsSound, KeepsFile, published};

    /// No file.
    pub(crate) fn empty(id: FileId) -> Self
        ensures { result ≡ no_file id }
    {
        BucketFile {
            id,
            file: None,
            base: 0,
            good: 0,
            torn: false,
            fresh: None,
        }
    }

    /// A file that was found, of which all sure bytes are committed.
    pub(crate) fn found(id: FileId, file: F, len: u64) -> Self
        requires id { (F.state file).id ≡ id }
        requires sure { (F.state file).sure ≡ len }
        requires sealed { (F.state file).sealed ≡ len }
        requires no_tail { HasNoTail F.tells (F.state file) }
        ensures { result ≡ found_file (F.state file) len }
    {
        BucketFile {
            id,
            file: Some(file),
            base: len,
            good: len,
            torn: false,
            fresh: None,
        }
    }

    /// Whether it has just its committed bytes.
    pub(crate) fn is_clean(&self) -> bool
        ensures clean { result ≡ is_clean self.now }
        ensures just { IsTrue result → IsTrue F.tells → file_bytes self.now.file ≡ base_bytes self.now }
    {
        self.good == self.base && !self.torn
    }

    /// How many bytes are committed.
    pub(crate) fn base(&self) -> u64
        ensures { result ≡ self.now.base }
    {
        self.base
    }

    /// How many bytes are committed or whole blocks behind those.
    pub(crate) fn good(&self) -> u64
        ensures good { result ≡ self.now.good }
        ensures order { self.now.base ≤ self.now.good }
    {
        self.good
    }

    /// The file, where there is one.
    pub(crate) fn own_file(&self) -> Option<OwnFile<'_, F>>
        ensures file { option_map (λ own. F.state own.file.now) result ≡ self.now.file }
        ensures base { IfSome result (λ own. own.base ≡ self.now.base) }
        ensures good { IfSome result (λ own. own.good ≡ self.now.good) }
        ensures sure { IfSome result (λ own. (F.state own.file.now).sure ≡ own.good) }
        ensures order { IfSome result (λ own. own.base ≤ own.good) }
    {
        match &self.file {
            Some(file) => Some(OwnFile {
                file,
                base: self.base,
                good: self.good,
            }),
            None => None,
        }
    }

    /// Adds a block at the end of the good bytes. Where there is no file one is made.
    pub(crate) fn append<S: Store<File = F, Seal = Z>>(
        &mut self,
        store: &mut S,
        block: &[u8],
    ) -> Result<(), StoreFault>
        requires { self.old.torn ≡ false }
        ensures grown { OnOk result (IsGrown F.tells self.old block.now self.new) }
        ensures whole { OnOk result (self.new.torn ≡ false) }
        ensures kept { OnErr result (IsGrown F.tells self.old [] self.new) }
        ensures torn { IsErrOf result StoreFault.Failed → ForSome self.new.file (λ _. self.new.torn ≡ true) }
        ensures missing { IsNone self.new.file → self.new ≡ self.old }
        ensures not_torn { IsErrOf result StoreFault.NoMemory → self.new.torn ≡ false }

        ensures cause { IsErrOf result StoreFault.Failed → Rose (S.faults store.old) (S.faults store.new) }
        ensures store { GoesOn S.faults S.given S.sound store.old store.new }
    {
        if self.file.is_none() {
            self.file = Some(store.create(self.id)?);
        }
        let Some(file) = &mut self.file else {
            unreachable!();
        };
        match store.append(file, block) {
            Ok(()) => {
                self.good += block.len() as u64;
                Ok(())
            }
            Err(StoreFault::Failed) => {
                self.torn = true;
                Err(StoreFault::Failed)
            }
            Err(StoreFault::NoMemory) => Err(StoreFault::NoMemory),
        }
    }

    /// Cuts the file to its committed bytes, if it may have others.
    pub(crate) fn cut_back<S: Store<File = F, Seal = Z>>(
        &mut self,
        store: &mut S,
    ) -> Result<(), Failed>
        requires { self.old.fresh ≡ None }
        ensures cut { OnOk result (IsCutBack F.tells self.old self.new) }
        ensures still { StaysIfClean self.old self.new }
        ensures torn { OnErr result (IsTornBack F.tells self.old self.new) }
        ensures kept { KeepsBase F.tells self.old self.new }

        ensures cause { OnErr result (Rose (S.faults store.old) (S.faults store.new)) }
        ensures store { GoesOn S.faults S.given S.sound store.old store.new }
    {
        if self.is_clean() {
            return Ok(());
        }
        let Some(file) = &mut self.file else {
            unreachable!();
        };
        self.good = self.base;
        match store.cut(file, self.base) {
            Ok(()) => {
                self.torn = false;
                Ok(())
            }
            Err(Failed) => {
                self.torn = true;
                Err(Failed)
            }
        }
    }

    /// Flushes the file, if it has grown. No byte changes.
    pub(crate) fn flush<S: Store<File = F, Seal = Z>>(
        &mut self,
        store: &mut S,
    ) -> Result<(), StoreFault>
        requires { self.old.torn ≡ false }
        ensures kept { KeepsBytes F.tells self.old self.new }
        ensures flushed { OnOk result (IsFlushed self.new) }

        ensures cause { IsErrOf result StoreFault.Failed → Rose (S.faults store.old) (S.faults store.new) }
        ensures store { GoesOn S.faults S.given S.sound store.old store.new }
    {
        if self.good == self.base {
            return Ok(());
        }
        match &mut self.file {
            None => Ok(()),
            Some(file) => store.flush(file),
        }
    }

    /// Seals the file, if it has grown. It can't fail.
    pub(crate) fn seal<S: Store<File = F, Seal = Z>>(&mut self, store: &mut S)
        requires whole { self.old.torn ≡ false }
        requires flushed { IsFlushed self.old }
        ensures sealed { IsSealed F.tells Z.tells self.new }
        ensures kept { KeepsFile F.tells self.old self.new }

        ensures no_fault { S.faults store.new ≡ S.faults store.old }
        ensures store { GoesOn S.faults S.given S.sound store.old store.new }
    {
        if self.good == self.base {
            return;
        }
        let Some(file) = &mut self.file else {
            unreachable!();
        };
        self.fresh = Some(store.seal(file));
    }

    /// Hands out the fresh seal, and what is under it is committed.
    pub(crate) fn publish(&mut self) -> Option<Z>
        ensures file { self.new ≡ published self.old }
        ensures seal { option_map Z.state result ≡ self.old.fresh }
        ensures order { self.old.base ≤ self.old.good }
        ensures longer { ForSome self.old.fresh (λ z. self.old.base ≤ z.len) }
        ensures within { ForSome self.old.fresh (λ z. z.len ≤ self.old.good) }
        ensures committed { ForSome self.old.fresh (λ z. IsTrue F.tells → IsTrue Z.tells → base_bytes (published self.old) ≡ z.bytes) }
        ensures just { self.old.torn ≡ false → IsTrue F.tells → file_bytes self.old.file ≡ good_bytes self.old }
        ensures sound { IsSound F.tells Z.tells self.old }
    {
        let seal = self.fresh.take()?;
        self.base = seal.len();
        Some(seal)
    }
}

impl<F: StoredFile, Z: SealCopy, S: Store<File = F, Seal = Z>> Readable<S> for BucketFile<F, Z> {
    ghost use Rattle.hq_lane.specs.BucketFiles.{good_bytes};

    ghost tells = { λ f. F.tells };

    ghost bytes = { good_bytes };

    ghost end = { λ p. p.good };

    fn read(&self, store: &mut S, at: u64, into: &mut [u8]) -> Result<(), Failed> {
        let Some(file) = &self.file else {
            unreachable!();
        };
        store.read_own(file, at, into)
    }
}
