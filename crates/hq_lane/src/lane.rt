//! A lane.
ghost use Rattle.std.specs.Prelude.{◌≡◌, ◌<◌, ◌≤◌, ◌↔◌, ℕ, true, false, length, slice_set, option_map, IsTrue, IfOk, IsOk, IfSome, IsNone, OnOk, OnErr, IsErrOf, None};
ghost use Rattle.std.specs.Option.{ForSome};
ghost use Rattle.hq_value.specs.Causes.{Rose, GoesOn};
ghost use Rattle.hq_store.specs.FileStep.{HasNoTail};
ghost use Rattle.hq_lane.specs.BucketFiles.{found_file, file_bytes, base_bytes, good_bytes, IsCutBack, KeepsBase, StaysIfClean, KeepsBytes, KeepsFile, IsSound, published};

use crate::bucket_files::{all_clean, cut_all, flush_each, seal_each};
use crate::slot::{Slot, Slots, no_slots};
use hq_store::{SealCopy, Store, StoreFault, StoredFile};
use hq_value::{Failed, FileId, NoMemory};
use std::alloc::Global;
use std::marker::Model;

/// The files of one writer of a table, one for each of the 16 buckets. Each has the id of the table, the lane's number
/// and its bucket. A lane must be spent: given to the catalogue, cut into parts or abandoned.
pub struct Lane<F: StoredFile, Z: SealCopy> {
    table: u32,
    number: u8,
    files: Slots<F, Z>,
}

impl<F: StoredFile, Z: SealCopy> Model for Lane<F, Z> {
    ghost use Rattle.hq_lane.specs.Lanes.{LaneState, HaveIds};

    ghost Value = { LaneState };

    ghost view = { λ l. record { table = l.table; number = l.number; files = l.files } };

    ghost invariant = { λ l. HaveIds l.table l.number l.files };
}

/// The file of a bucket, of which `base` bytes are committed and `good` bytes are whole blocks.
pub struct OwnFile<'a, F> {
    pub file: &'a F,
    pub base: u64,
    pub good: u64,
}

impl<F: StoredFile, Z: SealCopy> Lane<F, Z> {
    ghost use Rattle.hq_lane.specs.Lanes.{LaneState, no_files, file_of, EachFile, are_clean, AreClean, AreWhole, AreFlushed, AreSealed, HaveIds, HaveNoSeal, StopsAt, id_of};

    /// A lane without files. It takes no memory.
    pub fn fresh(_: Global, table: u32, number: u8) -> Result<Self, NoMemory>
        ensures lane { IfOk result (λ lane. lane ≡ record { table = table; number = number; files = no_files table number }) }
        ensures ok { IsOk result }
    {
        Ok(Lane {
            table,
            number,
            files: no_slots(table, number),
        })
    }

    /// The number of its table.
    pub fn table(&self) -> u32
        ensures { result ≡ self.now.table }
    {
        self.table
    }

    /// Its number among the lanes of its table.
    pub fn number(&self) -> u8
        ensures { result ≡ self.now.number }
    {
        self.number
    }

    /// Whether no file is torn and each has just its committed bytes.
    pub fn is_clean(&self) -> bool
        ensures clean { result ≡ are_clean self.now.files }
        ensures exactly { IsTrue result ↔ AreClean self.now.files }
        ensures just { IsTrue result → IsTrue F.tells → (b : ℕ) → b < 16
            → file_bytes (file_of self.now.files b).file ≡ base_bytes (file_of self.now.files b) }
    {
        all_clean(&self.files)
    }

    /// Gives up its files without a cut.
    pub fn abandon(self) {
        let Lane {
            table: _,
            number: _,
            files: _files,
        } = self;
    }

    /// Cuts each file that is torn or past its committed bytes, in order of buckets, and stops at the first
    /// failure. The committed bytes stay.
    pub fn cut_back<S: Store<File = F, Seal = Z>>(&mut self, store: &mut S) -> Result<(), Failed>
        requires { HaveNoSeal self.old.files }
        ensures lane { self.new ≡ record self.old { files = self.new.files } }
        ensures cut { OnOk result (EachFile (IsCutBack F.tells) self.old.files self.new.files) }
        ensures clean { OnOk result (AreClean self.new.files) }
        ensures stopped { OnErr result (StopsAt F.tells self.old.files self.new.files) }
        ensures kept { EachFile (KeepsBase F.tells) self.old.files self.new.files }
        ensures still { EachFile StaysIfClean self.old.files self.new.files }

        ensures cause { OnErr result (Rose (S.faults store.old) (S.faults store.new)) }
        ensures store { GoesOn S.faults S.given S.sound store.old store.new }
    {
        cut_all(&mut self.files, store)
    }

    /// Flushes each file that has grown, in order of buckets, and stops at the first fault. No byte changes.
    pub fn flush_all<S: Store<File = F, Seal = Z>>(
        &mut self,
        store: &mut S,
    ) -> Result<(), StoreFault>
        requires { AreWhole self.old.files }
        ensures lane { self.new ≡ record self.old { files = self.new.files } }
        ensures flushed { OnOk result (AreFlushed self.new.files) }
        ensures kept { EachFile (KeepsBytes F.tells) self.old.files self.new.files }

        ensures cause { IsErrOf result StoreFault.Failed → Rose (S.faults store.old) (S.faults store.new) }
        ensures store { GoesOn S.faults S.given S.sound store.old store.new }
    {
        flush_each(&mut self.files, store)
    }

    /// Gives each file that has grown a fresh seal of its bytes. It can't fail.
    pub fn seal_all<S: Store<File = F, Seal = Z>>(&mut self, store: &mut S)
        requires { AreFlushed self.old.files }
        ensures lane { self.new ≡ record self.old { files = self.new.files } }
        ensures sealed { AreSealed F.tells Z.tells self.new.files }
        ensures kept { EachFile (KeepsFile F.tells) self.old.files self.new.files }

        ensures no_fault { S.faults store.new ≡ S.faults store.old }
        ensures store { GoesOn S.faults S.given S.sound store.old store.new }
    {
        seal_each(&mut self.files, store);
    }

    /// Hands out the fresh seal of a bucket's file, and what is under it is committed from now on.
    #[tactic(auto, using(crate::proofs::Ids::ids_set))]
    pub fn publish(&mut self, bucket: u8) -> Option<Z>
        requires { bucket < 16 }
        ensures lane { self.new ≡ record self.old { files = slice_set self.old.files bucket (published (file_of self.old.files bucket)) } }
        ensures seal { option_map Z.state result ≡ (file_of self.old.files bucket).fresh }
        ensures order { (file_of self.old.files bucket).base ≤ (file_of self.old.files bucket).good }
        ensures longer { ForSome (file_of self.old.files bucket).fresh (λ z. (file_of self.old.files bucket).base ≤ z.len) }
        ensures within { ForSome (file_of self.old.files bucket).fresh (λ z. z.len ≤ (file_of self.old.files bucket).good) }
        ensures committed { ForSome (file_of self.old.files bucket).fresh (λ z. IsTrue F.tells → IsTrue Z.tells
            → base_bytes (published (file_of self.old.files bucket)) ≡ z.bytes) }
        ensures just { (file_of self.old.files bucket).torn ≡ false → IsTrue F.tells
            → file_bytes (file_of self.old.files bucket).file ≡ good_bytes (file_of self.old.files bucket) }
        ensures sound { IsSound F.tells Z.tells (file_of self.old.files bucket) }
        ensures sixteen { length self.old.files ≡ 16 }
    {
        self.files[bucket as usize].publish()
    }

    /// How many bytes of a bucket's file are committed.
    pub fn committed(&self, bucket: u8) -> u64
        requires { bucket < 16 }
        ensures { result ≡ (file_of self.now.files bucket).base }
    {
        self.files[bucket as usize].base()
    }

    /// The file of a bucket, where there is one.
    pub fn own_file(&self, bucket: u8) -> Option<OwnFile<'_, F>>
        requires { bucket < 16 }
        ensures file { option_map (λ own. F.state own.file.now) result ≡ (file_of self.now.files bucket).file }
        ensures base { IfSome result (λ own. own.base ≡ (file_of self.now.files bucket).base) }
        ensures good { IfSome result (λ own. own.good ≡ (file_of self.now.files bucket).good) }
        ensures sure { IfSome result (λ own. (F.state own.file.now).sure ≡ own.good) }
        ensures order { IfSome result (λ own. own.base ≤ own.good) }
    {
        self.files[bucket as usize].own_file()
    }

    /// Puts in a file that was found, of which all sure bytes are committed. Without memory nothing changes but that the
    /// file is given up.
    #[tactic(auto, using(crate::proofs::Ids::ids_put))]
    pub fn put_found(
        &mut self,
        alloc: Global,
        bucket: u8,
        file: F,
        len: u64,
    ) -> Result<(), NoMemory>
        requires in_range { bucket < 16 }
        requires id { (F.state file).id ≡ id_of self.old.table self.old.number bucket }
        requires sure { (F.state file).sure ≡ len }
        requires sealed { (F.state file).sealed ≡ len }
        requires no_tail { HasNoTail F.tells (F.state file) }
        ensures put { OnOk result (self.new ≡ record self.old { files = slice_set self.old.files bucket (found_file (F.state file) len) }) }
        ensures same { OnErr result (self.new ≡ self.old) }
    {
        let id = FileId {
            table: self.table,
            lane: self.number,
            bucket,
        };
        let slot = Slot::found(alloc, id, file, len)?;
        self.files[bucket as usize] = slot;
        Ok(())
    }

    /// What holds of every lane: each file has the id of its bucket.
    pub fn stands(&self)
        ensures { HaveIds self.now.table self.now.number self.now.files }
    {
        let _ = &self.files;
    }

    pub(crate) fn slot(&self, bucket: u8) -> &Slot<F, Z>
        requires { bucket < 16 }
        ensures { result.now ≡ file_of self.now.files bucket }
    {
        &self.files[bucket as usize]
    }

    pub(crate) fn take_apart(self) -> Slots<F, Z>
        ensures files { result ≡ self.files }
        ensures ids { HaveIds self.table self.number self.files }
    {
        let Lane {
            table: _,
            number: _,
            files,
        } = self;
        files
    }

    pub(crate) fn of(table: u32, number: u8, files: Slots<F, Z>) -> Self
        requires { HaveIds table number files }
        ensures { result ≡ record { table = table; number = number; files = files } }
    {
        Lane {
            table,
            number,
            files,
        }
    }
}
