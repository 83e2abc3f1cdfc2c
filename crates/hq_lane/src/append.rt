//! Rows appended to a file in blocks.
ghost use Rattle.std.specs.Prelude.{◌≡◌, ◌<◌, ◌≤◌, ℕ, false, true, All, IsOk, IsNone, OnOk, OnErr, IsErrOf, [], length};
ghost use Rattle.std.specs.Option.{ForSome};
ghost use Rattle.hq_value.specs.Causes.{Rose, GoesOn};
ghost use Rattle.hq_value.specs.Kinds.{Fits};
ghost use Rattle.hq_block.specs.Block.{IsBlock, FileRows, block_bytes, block_length, pack};
ghost use Rattle.hq_lane.specs.BucketFiles.{IsGrown};
ghost use Rattle.hq_lane.specs.Packing.{GrewByFirst};

use crate::bucket_file::BucketFile;
use hq_block::{EncodeFault, RowList, encode_list, fitting_in_list};
use hq_store::{SealCopy, Store, StoreFault, StoredFile};
use hq_value::Kinds;
use std::alloc::Global;

impl<F: StoredFile, Z: SealCopy> BucketFile<F, Z> {
    /// Adds rows in blocks of following rows, each taking as many as fit. At a fault whole blocks of the first
    /// rows stand.
    pub(crate) fn append_rows<S: Store<File = F, Seal = Z>>(
        &mut self,
        alloc: Global,
        store: &mut S,
        kinds: &Kinds,
        rows: &RowList,
    ) -> Result<(), StoreFault>
        requires some_kinds { 0 < length kinds.now }
        requires few_kinds { length kinds.now ≤ 64 }
        requires whole { self.old.torn ≡ false }
        requires fit { All (Fits kinds.now) rows.now }
        ensures packed { OnOk result (IsGrown F.tells self.old (pack kinds.now rows.now) self.new) }
        ensures file { OnOk result (FileRows kinds.now (pack kinds.now rows.now) rows.now) }
        ensures whole { OnOk result (self.new.torn ≡ false) }
        ensures first { OnErr result ((count : ℕ) × GrewByFirst F.tells kinds.now count rows.now self.old self.new) }
        ensures torn { IsErrOf result StoreFault.Failed → ForSome self.new.file (λ _. self.new.torn ≡ true) }
        ensures not_torn { IsErrOf result StoreFault.NoMemory → self.new.torn ≡ false }
        ensures missing { IsNone self.new.file → self.new ≡ self.old }
        ensures id { self.new.id ≡ self.old.id }
        ensures nothing { rows.now ≡ [] → IsOk result × (self.new ≡ self.old) × (store.new ≡ store.old) }

        ensures cause { IsErrOf result StoreFault.Failed → Rose (S.faults store.old) (S.faults store.new) }
        ensures store { GoesOn S.faults S.given S.sound store.old store.new }
    {
        if rows.len() == 0 {
            return Ok(());
        }
        let mut done = 0;
        while done < rows.len() {
            let rest = rows.behind(done);
            let count = fitting_in_list(kinds, &rest);
            self.append_block(alloc, store, kinds, &rest.first(count))?;
            done += count;
        }
        Ok(())
    }

    // Adds one block of the rows.
    fn append_block<S: Store<File = F, Seal = Z>>(
        &mut self,
        alloc: Global,
        store: &mut S,
        kinds: &Kinds,
        rows: &RowList,
    ) -> Result<(), StoreFault>
        requires some_kinds { 0 < length kinds.now }
        requires few_kinds { length kinds.now ≤ 64 }
        requires some_rows { 0 < length rows.now }
        requires whole { self.old.torn ≡ false }
        requires fit { All (Fits kinds.now) rows.now }
        requires room { block_length kinds.now rows.now ≤ 65536 }
        ensures grown { OnOk result (IsGrown F.tells self.old (block_bytes kinds.now rows.now) self.new) }
        ensures block { OnOk result (IsBlock kinds.now rows.now (block_bytes kinds.now rows.now)) }
        ensures whole { OnOk result (self.new.torn ≡ false) }
        ensures kept { OnErr result (IsGrown F.tells self.old [] self.new) }
        ensures torn { IsErrOf result StoreFault.Failed → ForSome self.new.file (λ _. self.new.torn ≡ true) }
        ensures not_torn { IsErrOf result StoreFault.NoMemory → self.new.torn ≡ false }
        ensures missing { IsNone self.new.file → self.new ≡ self.old }

        ensures cause { IsErrOf result StoreFault.Failed → Rose (S.faults store.old) (S.faults store.new) }
        ensures store { GoesOn S.faults S.given S.sound store.old store.new }
    {
        match encode_list(alloc, kinds, rows) {
            Ok(block) => self.append(store, &block),
            Err(EncodeFault::NoMemory) => Err(StoreFault::NoMemory),
            Err(EncodeFault::TooLarge) => unreachable!(),
        }
    }
}
