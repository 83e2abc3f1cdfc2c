//! Rows read again.
ghost use Rattle.std.specs.Prelude.{◌≡◌, ◌+◌, ◌-◌, ◌<◌, ◌≤◌, ℕ, All, length, slice_range, IsTrue};
ghost use Rattle.hq_value.specs.Causes.{Rose, GoesOnGiving, IsSteady};
ghost use Rattle.hq_value.specs.Kinds.{Fits};
ghost use Rattle.hq_lane.specs.Scans.{IsFile, HasRead, IsBadAt, IfRows, OnStore, IfBadBlock};
ghost use Rattle.hq_lane.specs.BucketFiles.{own_bytes};

use crate::block::{Stop, read_block};
use crate::lane::Lane;
use crate::range::{Readable, Sealed};
use crate::scan_end::ScanEnd;
use crate::slot::Slot;
use hq_store::{SealCopy, Store, StoredFile};
use hq_value::Kinds;
use std::alloc::Global;

/// The rows under a seal. The seal's bytes are, where they are told, blocks of these kinds. Each block is read once.
pub fn scan_seal<S: Store>(alloc: Global, store: &mut S, seal: &S::Seal, kinds: &Kinds) -> ScanEnd
    requires { IsTrue S.Seal.tells → IsFile kinds.now (S.Seal.state seal.now).bytes }
    ensures rows { IfRows result (HasRead S.Seal.tells (S.Seal.state seal.now).bytes (S.Seal.state seal.now).len kinds.now) }
    ensures fit { IfRows result (All (Fits kinds.now)) }
    ensures gave { IfRows result (λ _. GoesOnGiving S.faults S.given S.sound (S.Seal.state seal.now).len store.old store.new) }
    ensures bad { IfBadBlock result (IsBadAt kinds.now 0 (S.Seal.state seal.now).len) }
    ensures never_bad { IsTrue S.Seal.tells → IfBadBlock result (λ _ _. ⊥) }

    ensures cause { OnStore result (Rose (S.faults store.old) (S.faults store.new)) }
    ensures store { IsSteady S.faults S.sound store.old store.new }
{
    let end = seal.len();
    scan(alloc, store, &Sealed { seal }, 0, end, kinds)
}

impl<F: StoredFile, Z: SealCopy> Lane<F, Z> {
    ghost use Rattle.hq_lane.specs.Lanes.{file_of};

    /// The rows of a bucket behind the committed bytes. Those bytes are, where they are told, blocks of these kinds.
    pub fn scan_own<S: Store<File = F, Seal = Z>>(
        &self,
        alloc: Global,
        store: &mut S,
        bucket: u8,
        kinds: &Kinds,
    ) -> ScanEnd
        requires in_range { bucket < 16 }
        requires file { IsTrue F.tells → IsFile kinds.now (own_bytes (file_of self.now.files bucket)) }
        ensures rows { IfRows result (HasRead F.tells (own_bytes (file_of self.now.files bucket))
            ((file_of self.now.files bucket).good - (file_of self.now.files bucket).base) kinds.now) }
        ensures fit { IfRows result (All (Fits kinds.now)) }
        ensures gave { IfRows result (λ _. GoesOnGiving S.faults S.given S.sound
            ((file_of self.now.files bucket).good - (file_of self.now.files bucket).base) store.old store.new) }
        ensures bad { IfBadBlock result (IsBadAt kinds.now (file_of self.now.files bucket).base (file_of self.now.files bucket).good) }
        ensures never_bad { IsTrue F.tells → IfBadBlock result (λ _ _. ⊥) }

        ensures cause { OnStore result (Rose (S.faults store.old) (S.faults store.new)) }
        ensures store { IsSteady S.faults S.sound store.old store.new }
    {
        scan_slot(alloc, store, self.slot(bucket), kinds)
    }
}

// The rows of a file behind its committed bytes.
fn scan_slot<F: StoredFile, Z: SealCopy, S: Store<File = F, Seal = Z>>(
    alloc: Global,
    store: &mut S,
    slot: &Slot<F, Z>,
    kinds: &Kinds,
) -> ScanEnd
    requires { IsTrue F.tells → IsFile kinds.now (own_bytes slot.now) }
    ensures rows { IfRows result (HasRead F.tells (own_bytes slot.now) (slot.now.good - slot.now.base) kinds.now) }
    ensures fit { IfRows result (All (Fits kinds.now)) }
    ensures gave { IfRows result (λ _. GoesOnGiving S.faults S.given S.sound (slot.now.good - slot.now.base) store.old store.new) }
    ensures bad { IfBadBlock result (IsBadAt kinds.now slot.now.base slot.now.good) }
    ensures never_bad { IsTrue F.tells → IfBadBlock result (λ _ _. ⊥) }

    ensures cause { OnStore result (Rose (S.faults store.old) (S.faults store.new)) }
    ensures store { IsSteady S.faults S.sound store.old store.new }
{
    let good = slot.good();
    scan(alloc, store, slot, slot.base(), good, kinds)
}

// The rows of the blocks from `from` up to `to`.
fn scan<S: Store, R: Readable<S>>(
    alloc: Global,
    store: &mut S,
    range: &R,
    from: u64,
    to: u64,
    kinds: &Kinds,
) -> ScanEnd
    requires order { from ≤ to }
    requires within { to ≤ R.end range.now }
    requires file { IsTrue (R.tells range.now) → IsFile kinds.now (slice_range (R.bytes range.now) from to) }
    ensures rows { IfRows result (HasRead (R.tells range.now) (slice_range (R.bytes range.now) from to) (to - from) kinds.now) }
    ensures fit { IfRows result (All (Fits kinds.now)) }
    ensures gave { IfRows result (λ _. GoesOnGiving S.faults S.given S.sound (to - from) store.old store.new) }
    ensures bad { IfBadBlock result (IsBadAt kinds.now from to) }
    ensures never_bad { IsTrue (R.tells range.now) → IfBadBlock result (λ _ _. ⊥) }

    ensures cause { OnStore result (Rose (S.faults store.old) (S.faults store.new)) }
    ensures store { IsSteady S.faults S.sound store.old store.new }
{
    // What was given before has a number of 64 bits.
    let _given = store.given();
    let mut bytes = Vec::new(alloc);
    let mut rest = Vec::new(alloc);
    let mut rows = Vec::new(alloc);
    let mut at = from;
    while at < to {
        match read_block(
            alloc, store, range, at, to, kinds, &mut bytes, &mut rest, &mut rows,
        ) {
            Ok(()) => at += bytes.len() as u64,
            Err(Stop::Store) => return ScanEnd::Store,
            Err(Stop::BadBlock) => return ScanEnd::BadBlock { at, bytes },
            Err(Stop::NoMemory) => return ScanEnd::NoMemory,
        }
    }
    ScanEnd::Rows(rows)
}
