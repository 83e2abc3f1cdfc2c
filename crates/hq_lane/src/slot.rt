//! Room for the file of one bucket.
ghost use Rattle.std.specs.Prelude.{◌≡◌, ◌++◌, ◌<◌, ◌≤◌, ℕ, true, false, [], All, None, length, IfOk, IfSome, option_map, IsTrue, IsNone, IsOk, OnOk, OnErr, IsErrOf};
ghost use Rattle.std.specs.Option.{ForSome};
ghost use Rattle.hq_value.specs.Causes.{Rose, GoesOn};
ghost use Rattle.hq_value.specs.Kinds.{Fits};
ghost use Rattle.hq_block.specs.Block.{FileRows, pack};
ghost use Rattle.hq_lane.specs.BucketFiles.{no_file, found_file, is_clean, file_bytes, base_bytes, good_bytes, IsGrown, IsCutBack, IsTornBack, KeepsBase, StaysIfClean, KeepsBytes, IsFlushed, IsSealed, IsSound, KeepsFile, published};
ghost use Rattle.hq_store.specs.FileStep.{HasNoTail};
ghost use Rattle.hq_lane.specs.Lanes.{id_of, no_files};
ghost use Rattle.hq_lane.specs.Packing.{GrewByFirst};

use crate::bucket_file::BucketFile;
use crate::lane::OwnFile;
use crate::range::Readable;
use hq_block::RowList;
use hq_store::{SealCopy, Store, StoreFault, StoredFile};
use hq_value::{BUCKETS, Failed, FileId, Kinds, NoMemory};
use std::alloc::Global;
use std::marker::Model;

/// The file of one bucket, which has this id, behind a handle, so that it moves with few bytes; or none yet, which takes
/// no memory.
#[derive(Drop)]
pub(crate) struct Slot<F: StoredFile, Z: SealCopy> {
    id: FileId,
    held: Option<Box<BucketFile<F, Z>>>,
}

/// One for each bucket.
pub(crate) type Slots<F, Z> = [Slot<F, Z>; BUCKETS];

impl<F: StoredFile, Z: SealCopy> Model for Slot<F, Z> {
    ghost use Rattle.std.specs.Prelude.{◌≡◌, option_map, unwrap_or};
    ghost use Rattle.std.specs.Option.{ForSome};
    ghost use Rattle.hq_lane.specs.BucketFiles.{BucketState, no_file};

    ghost Value = { BucketState };

    ghost view = { λ s. unwrap_or (option_map (λ h. h.value) s.held) (no_file s.id) };

    ghost invariant = { λ s. ForSome s.held (λ h. h.value.id ≡ s.id) };
}

/// No files of a lane of a table yet.
pub(crate) fn no_slots<F: StoredFile, Z: SealCopy>(table: u32, number: u8) -> Slots<F, Z>
    ensures { result ≡ no_files table number }
{
    [
        Slot::none(table, number, 0),
        Slot::none(table, number, 1),
        Slot::none(table, number, 2),
        Slot::none(table, number, 3),
        Slot::none(table, number, 4),
        Slot::none(table, number, 5),
        Slot::none(table, number, 6),
        Slot::none(table, number, 7),
        Slot::none(table, number, 8),
        Slot::none(table, number, 9),
        Slot::none(table, number, 10),
        Slot::none(table, number, 11),
        Slot::none(table, number, 12),
        Slot::none(table, number, 13),
        Slot::none(table, number, 14),
        Slot::none(table, number, 15),
    ]
}

impl<F: StoredFile, Z: SealCopy> Slot<F, Z> {
    // No file of this bucket yet.
    fn none(table: u32, lane: u8, bucket: u8) -> Self
        ensures { result ≡ no_file (id_of table lane bucket) }
    {
        let id = FileId {
            table,
            lane,
            bucket,
        };
        Slot { id, held: None }
    }

    /// A file that was found, of which all sure bytes are committed.
    pub(crate) fn found(alloc: Global, id: FileId, file: F, len: u64) -> Result<Self, NoMemory>
        requires id { (F.state file).id ≡ id }
        requires sure { (F.state file).sure ≡ len }
        requires sealed { (F.state file).sealed ≡ len }
        requires no_tail { HasNoTail F.tells (F.state file) }
        ensures { IfOk result (λ slot. slot ≡ found_file (F.state file) len) }
    {
        let held = Box::new(alloc, BucketFile::found(id, file, len))?;
        Ok(Slot {
            id,
            held: Some(held),
        })
    }

    /// Takes the file out, and leaves none.
    pub(crate) fn take(&mut self) -> Self
        ensures taken { result ≡ self.old }
        ensures left { self.new.id ≡ self.old.id }
    {
        let held = self.held.take();
        Slot { id: self.id, held }
    }

    /// Whether it has just its committed bytes.
    pub(crate) fn is_clean(&self) -> bool
        ensures clean { result ≡ is_clean self.now }
        ensures just { IsTrue result → IsTrue F.tells → file_bytes self.now.file ≡ base_bytes self.now }
    {
        match &self.held {
            Some(held) => held.is_clean(),
            None => true,
        }
    }

    /// How many bytes are committed.
    pub(crate) fn base(&self) -> u64
        ensures { result ≡ self.now.base }
    {
        match &self.held {
            Some(held) => held.base(),
            None => 0,
        }
    }

    /// How many bytes are committed or whole blocks behind those.
    pub(crate) fn good(&self) -> u64
        ensures good { result ≡ self.now.good }
        ensures order { self.now.base ≤ self.now.good }
    {
        match &self.held {
            Some(held) => held.good(),
            None => 0,
        }
    }

    /// The file, where there is one.
    pub(crate) fn own_file(&self) -> Option<OwnFile<'_, F>>
        ensures file { option_map (λ own. F.state own.file.now) result ≡ self.now.file }
        ensures base { IfSome result (λ own. own.base ≡ self.now.base) }
        ensures good { IfSome result (λ own. own.good ≡ self.now.good) }
        ensures sure { IfSome result (λ own. (F.state own.file.now).sure ≡ own.good) }
        ensures order { IfSome result (λ own. own.base ≤ own.good) }
    {
        match &self.held {
            Some(held) => held.own_file(),
            None => None,
        }
    }

    /// Adds rows in blocks of following rows, each taking as many as fit. Where there is no file one is made, but
    /// not for no rows. At a fault whole blocks of the first rows stand.
    pub(crate) fn append_rows<S: Store<File = F, Seal = Z>>(
        &mut self,
        alloc: Global,
        store: &mut S,
        kinds: &Kinds,
        rows: &RowList,
    ) -> Result<(), StoreFault>
        requires some_kinds { 0 < length kinds.now }
        requires few_kinds { length kinds.now ≤ 64 }
        requires whole { self.old.torn ≡ false }
        requires fit { All (Fits kinds.now) rows.now }
        ensures packed { OnOk result (IsGrown F.tells self.old (pack kinds.now rows.now) self.new) }
        ensures file { OnOk result (FileRows kinds.now (pack kinds.now rows.now) rows.now) }
        ensures whole { OnOk result (self.new.torn ≡ false) }
        ensures first { OnErr result ((count : ℕ) × GrewByFirst F.tells kinds.now count rows.now self.old self.new) }
        ensures torn { IsErrOf result StoreFault.Failed → ForSome self.new.file (λ _. self.new.torn ≡ true) }
        ensures not_torn { IsErrOf result StoreFault.NoMemory → self.new.torn ≡ false }
        ensures missing { IsNone self.new.file → self.new ≡ self.old }
        ensures id { self.new.id ≡ self.old.id }
        ensures nothing { rows.now ≡ [] → IsOk result × (self.new ≡ self.old) × (store.new ≡ store.old) }

        ensures cause { IsErrOf result StoreFault.Failed → Rose (S.faults store.old) (S.faults store.new) }
        ensures store { GoesOn S.faults S.given S.sound store.old store.new }
    {
        if let Some(held) = &mut self.held {
            return held.append_rows(alloc, store, kinds, rows);
        }
        if rows.len() == 0 {
            return Ok(());
        }
        let Ok(mut made) = Box::new(alloc, BucketFile::empty(self.id)) else {
            return Err(StoreFault::NoMemory);
        };
        let result = made.append_rows(alloc, store, kinds, rows);
        self.held = Some(made);
        result
    }

    /// Cuts the file to its committed bytes, if it may have others.
    pub(crate) fn cut_back<S: Store<File = F, Seal = Z>>(
        &mut self,
        store: &mut S,
    ) -> Result<(), Failed>
        requires { self.old.fresh ≡ None }
        ensures cut { OnOk result (IsCutBack F.tells self.old self.new) }
        ensures still { StaysIfClean self.old self.new }
        ensures torn { OnErr result (IsTornBack F.tells self.old self.new) }
        ensures kept { KeepsBase F.tells self.old self.new }

        ensures cause { OnErr result (Rose (S.faults store.old) (S.faults store.new)) }
        ensures store { GoesOn S.faults S.given S.sound store.old store.new }
    {
        match &mut self.held {
            Some(held) => held.cut_back(store),
            None => Ok(()),
        }
    }

    /// Flushes the file, if it has grown. No byte changes.
    pub(crate) fn flush<S: Store<File = F, Seal = Z>>(
        &mut self,
        store: &mut S,
    ) -> Result<(), StoreFault>
        requires { self.old.torn ≡ false }
        ensures kept { KeepsBytes F.tells self.old self.new }
        ensures flushed { OnOk result (IsFlushed self.new) }

        ensures cause { IsErrOf result StoreFault.Failed → Rose (S.faults store.old) (S.faults store.new) }
        ensures store { GoesOn S.faults S.given S.sound store.old store.new }
    {
        match &mut self.held {
            Some(held) => held.flush(store),
            None => Ok(()),
        }
    }

    /// Seals the file, if it has grown. It can't fail.
    pub(crate) fn seal<S: Store<File = F, Seal = Z>>(&mut self, store: &mut S)
        requires whole { self.old.torn ≡ false }
        requires flushed { IsFlushed self.old }
        ensures sealed { IsSealed F.tells Z.tells self.new }
        ensures kept { KeepsFile F.tells self.old self.new }

        ensures no_fault { S.faults store.new ≡ S.faults store.old }
        ensures store { GoesOn S.faults S.given S.sound store.old store.new }
    {
        if let Some(held) = &mut self.held {
            held.seal(store);
        }
    }

    /// Hands out the fresh seal, and what is under it is committed.
    pub(crate) fn publish(&mut self) -> Option<Z>
        ensures file { self.new ≡ published self.old }
        ensures seal { option_map Z.state result ≡ self.old.fresh }
        ensures order { self.old.base ≤ self.old.good }
        ensures longer { ForSome self.old.fresh (λ z. self.old.base ≤ z.len) }
        ensures within { ForSome self.old.fresh (λ z. z.len ≤ self.old.good) }
        ensures committed { ForSome self.old.fresh (λ z. IsTrue F.tells → IsTrue Z.tells → base_bytes (published self.old) ≡ z.bytes) }
        ensures just { self.old.torn ≡ false → IsTrue F.tells → file_bytes self.old.file ≡ good_bytes self.old }
        ensures sound { IsSound F.tells Z.tells self.old }
    {
        match &mut self.held {
            Some(held) => held.publish(),
            None => None,
        }
    }
}

impl<F: StoredFile, Z: SealCopy, S: Store<File = F, Seal = Z>> Readable<S> for Slot<F, Z> {
    ghost use Rattle.hq_lane.specs.BucketFiles.{good_bytes};

    ghost tells = { λ f. F.tells };

    ghost bytes = { good_bytes };

    ghost end = { λ s. s.good };

    fn read(&self, store: &mut S, at: u64, into: &mut [u8]) -> Result<(), Failed> {
        let Some(held) = &self.held else {
            unreachable!();
        };
        held.read(store, at, into)
    }
}
