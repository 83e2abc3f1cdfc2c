//! Bytes that a store reads: those under a seal, and the good ones of a file.
ghost use Rattle.std.specs.Prelude.{◌≡◌, ◌+◌, ◌<◌, ◌≤◌, ℕ, Bool, List, length, slice_range, IsTrue, OnOk, OnErr};
ghost use Rattle.hq_value.specs.Causes.{Rose, GoesOn, GoesOnGiving};

use crate::slot::Slot;
use hq_store::{SealCopy, Store, StoredFile};
use hq_value::Failed;

/// Bytes that a store reads.
pub(crate) trait Readable<S: Store> {
    ghost tells: { Self → Bool };

    ghost bytes: { Self → List ℕ };

    ghost end: { Self → ℕ };

    /// Fills `into` with the bytes from `at` on.
    fn read(&self, store: &mut S, at: u64, into: &mut [u8]) -> Result<(), Failed>
        requires some { 0 < length into.old }
        requires range { at + length into.old ≤ end self.now }
        ensures bytes { OnOk result (IsTrue (tells self.now) → into.new ≡ slice_range (bytes self.now) at (at + length into.old)) }

        ensures cause { OnErr result (Rose (S.faults store.old) (S.faults store.new)) }
        ensures gave { OnOk result (GoesOnGiving S.faults S.given S.sound (length into.old) store.old store.new) }
        ensures gave_none { OnErr result (GoesOn S.faults S.given S.sound store.old store.new) };
}

/// The bytes under a seal.
#[derive(Drop)]
pub(crate) struct Sealed<'a, Z: SealCopy> {
    pub(crate) seal: &'a Z,
}

impl<'a, Z: SealCopy, S: Store<Seal = Z>> Readable<S> for Sealed<'a, Z> {
    ghost tells = { λ s. Z.tells };

    ghost bytes = { λ s. (Z.state s.seal.now).bytes };

    ghost end = { λ s. (Z.state s.seal.now).len };

    fn read(&self, store: &mut S, at: u64, into: &mut [u8]) -> Result<(), Failed> {
        store.read(self.seal, at, into)
    }
}

/// The bytes under a seal, or the good ones of a file.
#[derive(Drop)]
pub(crate) enum Range<A, B> {
    Sealed(A),
    Own(B),
}

impl<'a, F: StoredFile, Z: SealCopy, S: Store<File = F, Seal = Z>> Readable<S>
    for Range<&'a Z, &'a Slot<F, Z>> {
    ghost use Rattle.hq_lane.specs.BucketFiles.{good_bytes};
    ghost use Rattle.hq_lane.specs.Cursors.{by_range};

    ghost tells = { by_range (λ z. Z.tells) (λ f. F.tells) };

    ghost bytes = { by_range (λ z. (Z.state z.now).bytes) (λ f. good_bytes f.now) };

    ghost end = { by_range (λ z. (Z.state z.now).len) (λ f. f.now.good) };

    fn read(&self, store: &mut S, at: u64, into: &mut [u8]) -> Result<(), Failed> {
        match self {
            Range::Sealed(seal) => store.read(*seal, at, into),
            Range::Own(slot) => slot.read(store, at, into),
        }
    }
}
