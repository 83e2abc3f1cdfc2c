//! A cursor over the blocks of a range of bytes.
ghost use Rattle.std.specs.Prelude.{◌≡◌, ◌<◌, ◌≤◌, ◌↔◌, ◌==◌, [], IsTrue, OnOk, OnErr, IsErrOf};
ghost use Rattle.hq_value.specs.Causes.{Rose, GoesOnGiving, IsSteady};
ghost use Rattle.hq_block.specs.declared.head.BlockHead.{BlockHead as FoundHead};
ghost use Rattle.hq_block.specs.Skipping.{read_length};
ghost use Rattle.hq_lane.specs.BucketFiles.{own_bytes};
ghost use Rattle.hq_lane.specs.Scans.{IsFile, IsBadAt};
ghost use Rattle.hq_lane.specs.Cursors.{HasPassed, IfBad};

use crate::block::Stop;
use crate::lane::Lane;
use crate::pass::pass_block;
use crate::range::Range;
use crate::scan_end::ScanFault;
use crate::slot::Slot;
use hq_block::ColumnTest;
use hq_store::{SealCopy, Store, StoredFile};
use hq_value::{Kinds, Row};
use std::alloc::Global;
use std::marker::Model;
use std::mem;

/// The blocks of a range of bytes, one after another. A block of which its head shows that none of its rows passes the
/// tests is skipped: just its head and bounds are read.
#[derive(Drop)]
pub struct BlockCursor<'a, F: StoredFile, Z: SealCopy> {
    alloc: Global,
    range: Range<&'a Z, &'a Slot<F, Z>>,
    at: u64,
    to: u64,
    kinds: &'a Kinds,
    tests: &'a [ColumnTest],
    bytes: Vec<u8>,
    rest: Vec<u8>,
}

impl<'a, F: StoredFile, Z: SealCopy> Model for BlockCursor<'a, F, Z> {
    ghost use Rattle.std.specs.Prelude.{slice_range};
    ghost use Rattle.hq_lane.specs.BucketFiles.{good_bytes};
    ghost use Rattle.hq_lane.specs.Cursors.{CursorState, IsCursor, by_range};

    ghost Value = { CursorState };

    ghost view = { λ c. record {
      told = by_range (λ z. Z.tells) (λ f. F.tells) c.range;
      at = c.at;
      to = c.to;
      left = slice_range (by_range (λ z. (Z.state z.now).bytes) (λ f. good_bytes f.now) c.range) c.at c.to;
      kinds = c.kinds.now;
      tests = c.tests.now;
    } };

    ghost invariant = { λ c. IsCursor (by_range (λ z. (Z.state z.now).len) (λ f. f.now.good) c.range) (record {
      told = by_range (λ z. Z.tells) (λ f. F.tells) c.range;
      at = c.at;
      to = c.to;
      left = slice_range (by_range (λ z. (Z.state z.now).bytes) (λ f. good_bytes f.now) c.range) c.at c.to;
      kinds = c.kinds.now;
      tests = c.tests.now;
    }) };
}

impl<'a, F: StoredFile, Z: SealCopy> BlockCursor<'a, F, Z> {
    ghost use Rattle.hq_lane.specs.Cursors.{CursorState};

    /// The blocks under a seal. The seal's bytes are, where they are told, blocks of these kinds.
    pub fn under_seal(alloc: Global, seal: &'a Z, kinds: &'a Kinds, tests: &'a [ColumnTest]) -> Self
        requires { IsTrue Z.tells → IsFile kinds.now (Z.state seal.now).bytes }
        ensures cursor { result ≡ record { told = Z.tells; at = 0; to = (Z.state seal.now).len; left = result.left; kinds = kinds.now; tests = tests.now } }
        ensures left { IsTrue Z.tells → result.left ≡ (Z.state seal.now).bytes }
    {
        let to = seal.len();
        BlockCursor {
            alloc,
            range: Range::Sealed(seal),
            at: 0,
            to,
            kinds,
            tests,
            bytes: Vec::new(alloc),
            rest: Vec::new(alloc),
        }
    }

    // The blocks of a file behind its committed bytes.
    fn of_own(
        alloc: Global,
        slot: &'a Slot<F, Z>,
        kinds: &'a Kinds,
        tests: &'a [ColumnTest],
    ) -> Self
        requires { IsTrue F.tells → IsFile kinds.now (own_bytes slot.now) }
        ensures { result ≡ record { told = F.tells; at = slot.now.base; to = slot.now.good; left = own_bytes slot.now; kinds = kinds.now; tests = tests.now } }
    {
        let to = slot.good();
        BlockCursor {
            alloc,
            range: Range::Own(slot),
            at: slot.base(),
            to,
            kinds,
            tests,
            bytes: Vec::new(alloc),
            rest: Vec::new(alloc),
        }
    }

    /// Whether all blocks were passed.
    pub fn is_done(&self) -> bool
        ensures done { result ≡ (self.now.at == self.now.to) }
        ensures left { IsTrue result → self.now.left ≡ [] }
        ensures order { self.now.at ≤ self.now.to }
    {
        self.at == self.to
    }

    /// Passes the next block: reads it and adds its rows, or skips it. After an error the cursor stands as before, and
    /// the rows are those from before.
    pub fn next<S: Store<File = F, Seal = Z>>(
        &mut self,
        store: &mut S,
        rows: &mut Vec<Row>,
    ) -> Result<(), ScanFault>
        requires { self.old.at < self.old.to }
        ensures cursor { self.new ≡ record self.old { at = self.new.at; left = self.new.left } }
        ensures passed { OnOk result ((head : FoundHead) × HasPassed self.old self.new head rows.old.items rows.new.items
            × GoesOnGiving S.faults S.given S.sound (read_length self.old.tests head) store.old store.new) }
        ensures err { OnErr result ((self.new ≡ self.old) × (rows.new.items ≡ rows.old.items)) }
        ensures bad { IfBad result (IsBadAt self.old.kinds self.old.at self.old.to) }
        ensures never_bad { IsTrue self.old.told → IfBad result (λ _ _. ⊥) }

        ensures cause { IsErrOf result ScanFault.Store → Rose (S.faults store.old) (S.faults store.new) }
        ensures store { IsSteady S.faults S.sound store.old store.new }
    {
        let passed = pass_block(
            self.alloc,
            store,
            &self.range,
            self.at,
            self.to,
            self.kinds,
            self.tests,
            &mut self.bytes,
            &mut self.rest,
            rows,
        );
        match passed {
            Ok(len) => {
                self.at += len;
                Ok(())
            }
            Err(Stop::Store) => Err(ScanFault::Store),
            Err(Stop::BadBlock) => Err(ScanFault::BadBlock {
                at: self.at,
                bytes: mem::replace(&mut self.bytes, Vec::new(self.alloc)),
            }),
            Err(Stop::NoMemory) => Err(ScanFault::NoMemory),
        }
    }
}

impl<F: StoredFile, Z: SealCopy> Lane<F, Z> {
    ghost use Rattle.hq_lane.specs.Lanes.{file_of};

    /// The blocks of a bucket behind the committed bytes. Those bytes are, where they are told, blocks of these kinds.
    pub fn own_blocks<'a>(
        &'a self,
        alloc: Global,
        bucket: u8,
        kinds: &'a Kinds,
        tests: &'a [ColumnTest],
    ) -> BlockCursor<'a, F, Z>
        requires in_range { bucket < 16 }
        requires file { IsTrue F.tells → IsFile kinds.now (own_bytes (file_of self.now.files bucket)) }
        ensures cursor { result ≡ record {
          told = F.tells;
          at = (file_of self.now.files bucket).base;
          to = (file_of self.now.files bucket).good;
          left = own_bytes (file_of self.now.files bucket);
          kinds = kinds.now;
          tests = tests.now;
        } }
    {
        BlockCursor::of_own(alloc, self.slot(bucket), kinds, tests)
    }
}
