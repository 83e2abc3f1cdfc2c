//! A part of a lane.
ghost use Rattle.std.specs.Prelude.{◌≡◌, ◌≢◌, ◌<◌, ◌≤◌, ℕ, false, true, All, IsOk, IsNone, OnOk, OnErr, IsErrOf, [], length, slice_set};
ghost use Rattle.std.specs.Option.{ForSome};
ghost use Rattle.hq_value.specs.Causes.{Rose, GoesOn};
ghost use Rattle.hq_value.specs.Kinds.{Fits};
ghost use Rattle.hq_block.specs.Block.{FileRows, pack};
ghost use Rattle.hq_lane.specs.BucketFiles.{IsGrown};
ghost use Rattle.hq_lane.specs.Packing.{GrewByFirst, chosen_rows};

use crate::slot::{Slot, Slots, no_slots};
use hq_block::RowList;
use hq_store::{SealCopy, Store, StoreFault, StoredFile};
use hq_value::{BUCKETS, Kinds, Row};
use std::alloc::Global;
use std::marker::Model;

/// Some files of a lane, which one node writes. It has room for all, so that a lane can be made of its parts without
/// memory. It must be spent, by `whole`.
pub struct LanePart<F: StoredFile, Z: SealCopy> {
    table: u32,
    number: u8,
    here: [bool; BUCKETS],
    files: Slots<F, Z>,
}

impl<F: StoredFile, Z: SealCopy> Model for LanePart<F, Z> {
    ghost use Rattle.hq_lane.specs.Lanes.{PartState, HaveIds};

    ghost Value = { PartState };

    ghost view = { λ p. record { table = p.table; number = p.number; here = p.here; files = p.files } };

    ghost invariant = { λ p. HaveIds p.table p.number p.files };
}

impl<F: StoredFile, Z: SealCopy> LanePart<F, Z> {
    ghost use Rattle.hq_lane.specs.Lanes.{PartState, HaveIds, id_of, file_of, owns};

    /// Whether the file of a bucket is here.
    pub fn has(&self, bucket: u8) -> bool
        requires { bucket < 16 }
        ensures { result ≡ owns self.now bucket }
    {
        self.here[bucket as usize]
    }

    /// Adds rows to a bucket's file, in blocks of following rows that each take as many as fit. After a failure the file
    /// is torn, or has no file where none could be made. At any fault whole blocks of the first rows stand.
    /// Without rows no file is made.
    #[tactic(auto, using(crate::proofs::Ids::ids_set))]
    pub fn append_rows<S: Store<File = F, Seal = Z>>(
        &mut self,
        alloc: Global,
        store: &mut S,
        kinds: &Kinds,
        bucket: u8,
        rows: &[Row],
    ) -> Result<(), StoreFault>
        requires in_range { bucket < 16 }
        requires here { owns self.old bucket ≡ true }
        requires whole { (file_of self.old.files bucket).torn ≡ false }
        requires some_kinds { 0 < length kinds.now }
        requires few_kinds { length kinds.now ≤ 64 }
        requires fit { All (Fits kinds.now) rows.now }

        // No other file changes.
        ensures others { self.new ≡ record self.old { files = slice_set self.old.files bucket (file_of self.new.files bucket) } }

        ensures packed { OnOk result (IsGrown F.tells (file_of self.old.files bucket) (pack kinds.now rows.now) (file_of self.new.files bucket)) }
        ensures file { OnOk result (FileRows kinds.now (pack kinds.now rows.now) rows.now) }
        ensures whole { OnOk result ((file_of self.new.files bucket).torn ≡ false) }
        ensures first { OnErr result ((count : ℕ) × GrewByFirst F.tells kinds.now count rows.now (file_of self.old.files bucket) (file_of self.new.files bucket)) }
        ensures torn { IsErrOf result StoreFault.Failed → ForSome (file_of self.new.files bucket).file (λ _. (file_of self.new.files bucket).torn ≡ true) }
        ensures not_torn { IsErrOf result StoreFault.NoMemory → (file_of self.new.files bucket).torn ≡ false }
        ensures missing { IsNone (file_of self.new.files bucket).file → file_of self.new.files bucket ≡ file_of self.old.files bucket }
        ensures nothing { rows.now ≡ [] → IsOk result × (self.new ≡ self.old) × (store.new ≡ store.old) }

        ensures cause { IsErrOf result StoreFault.Failed → Rose (S.faults store.old) (S.faults store.new) }
        ensures store { GoesOn S.faults S.given S.sound store.old store.new }
    {
        let rows = RowList::all(rows);
        self.files[bucket as usize].append_rows(alloc, store, kinds, &rows)
    }

    /// The same of the rows that references lead to, none of which is copied: those of a list that go to this bucket.
    #[tactic(auto, using(crate::proofs::Ids::ids_set))]
    pub fn append_chosen<S: Store<File = F, Seal = Z>>(
        &mut self,
        alloc: Global,
        store: &mut S,
        kinds: &Kinds,
        bucket: u8,
        rows: &[&Row],
    ) -> Result<(), StoreFault>
        requires in_range { bucket < 16 }
        requires here { owns self.old bucket ≡ true }
        requires whole { (file_of self.old.files bucket).torn ≡ false }
        requires some_kinds { 0 < length kinds.now }
        requires few_kinds { length kinds.now ≤ 64 }
        requires fit { All (Fits kinds.now) (chosen_rows rows.now) }

        // No other file changes.
        ensures others { self.new ≡ record self.old { files = slice_set self.old.files bucket (file_of self.new.files bucket) } }

        ensures packed { OnOk result (IsGrown F.tells (file_of self.old.files bucket) (pack kinds.now (chosen_rows rows.now)) (file_of self.new.files bucket)) }
        ensures file { OnOk result (FileRows kinds.now (pack kinds.now (chosen_rows rows.now)) (chosen_rows rows.now)) }
        ensures whole { OnOk result ((file_of self.new.files bucket).torn ≡ false) }
        ensures first { OnErr result ((count : ℕ) × GrewByFirst F.tells kinds.now count (chosen_rows rows.now) (file_of self.old.files bucket) (file_of self.new.files bucket)) }
        ensures torn { IsErrOf result StoreFault.Failed → ForSome (file_of self.new.files bucket).file (λ _. (file_of self.new.files bucket).torn ≡ true) }
        ensures not_torn { IsErrOf result StoreFault.NoMemory → (file_of self.new.files bucket).torn ≡ false }
        ensures missing { IsNone (file_of self.new.files bucket).file → file_of self.new.files bucket ≡ file_of self.old.files bucket }
        ensures nothing { rows.now ≡ [] → IsOk result × (self.new ≡ self.old) × (store.new ≡ store.old) }

        ensures cause { IsErrOf result StoreFault.Failed → Rose (S.faults store.old) (S.faults store.new) }
        ensures store { GoesOn S.faults S.given S.sound store.old store.new }
    {
        let rows = RowList::chosen(rows);
        self.files[bucket as usize].append_rows(alloc, store, kinds, &rows)
    }

    /// Takes a file out, and leaves none.
    #[tactic(auto, using(crate::proofs::Ids::ids_set))]
    pub(crate) fn take(&mut self, bucket: u8) -> Slot<F, Z>
        requires { bucket < 16 }
        ensures taken { result ≡ file_of self.old.files bucket }
        ensures id { result.id ≡ id_of self.old.table self.old.number bucket }
        ensures others { (b : ℕ) → b ≢ bucket → file_of self.new.files b ≡ file_of self.old.files b }
        ensures here { self.new.here ≡ self.old.here }
        ensures table { self.new.table ≡ self.old.table }
        ensures number { self.new.number ≡ self.old.number }
    {
        self.files[bucket as usize].take()
    }

    /// Puts a file in.
    #[tactic(auto, using(crate::proofs::Ids::ids_put))]
    pub(crate) fn put(&mut self, bucket: u8, file: Slot<F, Z>)
        requires in_range { bucket < 16 }
        requires id { file.id ≡ id_of self.old.table self.old.number bucket }
        ensures put { file_of self.new.files bucket ≡ file }
        ensures others { (b : ℕ) → b ≢ bucket → file_of self.new.files b ≡ file_of self.old.files b }
        ensures here { self.new.here ≡ self.old.here }
        ensures table { self.new.table ≡ self.old.table }
        ensures number { self.new.number ≡ self.old.number }
    {
        self.files[bucket as usize] = file;
    }

    /// A part whose files are still to be put in.
    pub(crate) fn empty(table: u32, number: u8, here: [bool; BUCKETS]) -> Self
        ensures table { result.table ≡ table }
        ensures number { result.number ≡ number }
        ensures here { result.here ≡ here }
    {
        LanePart {
            table,
            number,
            here,
            files: no_slots(table, number),
        }
    }

    pub(crate) fn take_apart(self) -> (u32, u8, Slots<F, Z>)
        ensures table { result.0 ≡ self.table }
        ensures number { result.1 ≡ self.number }
        ensures files { result.2 ≡ self.files }
        ensures ids { HaveIds result.0 result.1 result.2 }
    {
        let LanePart {
            table,
            number,
            here: _,
            files,
        } = self;
        (table, number, files)
    }

    /// Gives up a part whose files are taken.
    pub(crate) fn discard(self) {
        let LanePart {
            table: _,
            number: _,
            here: _,
            files: _files,
        } = self;
    }
}
