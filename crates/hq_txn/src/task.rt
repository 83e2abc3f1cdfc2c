//! What one node does of a write.
ghost use Rattle.std.specs.Prelude.{◌≡◌, ◌≢◌, ◌<◌, ◌≤◌, ℕ, true, false, All, length, IsTrue, OnOk, OnErr, IsErrOf};
ghost use Rattle.hq_value.specs.Causes.{Rose, IsSteady, GoesOn};
ghost use Rattle.hq_value.specs.Kinds.{Fits};
ghost use Rattle.hq_lane.specs.Lanes.{file_of, owns};
ghost use Rattle.hq_txn.specs.InUse.{HasAnswered};
ghost use Rattle.hq_txn.specs.Parts.{IsUsed, IsWholePart, HasSameHead, WritesPart, BeginsPart, UnlessHost, UnlessStore};
ghost use Rattle.hq_txn.specs.Ran.{HasRun};
ghost use Rattle.hq_txn.specs.Shares.{share_in};
ghost use Rattle.hq_txn.specs.Writes.{IsWritten, IsBegun};

use crate::shares::{Share, rows_in};
use hq_detect::{Bench, Host};
use hq_lane::LanePart;
use hq_store::{SealCopy, Store, StoreFault, StoredFile};
use hq_value::Kinds;
use std::alloc::Global;

/// Why a node did not write its part.
#[derive(Clone, Copy, Debug, PartialEq, Eq)]
pub(crate) enum Trouble {
    Host,
    Store,
    NoMemory,
}

/// A node's bench and its part of a lane, behind a handle, and how its work went.
pub(crate) struct Task<S, H, L, F: StoredFile, Z: SealCopy> {
    pub(crate) bench: Bench<S, H, L>,
    pub(crate) part: Box<LanePart<F, Z>>,
    pub(crate) outcome: Result<(), Trouble>,
}

// Whether the part has the file of a bucket.
fn is_used<F: StoredFile, Z: SealCopy>(part: &LanePart<F, Z>) -> bool
    ensures used { IsTrue result → IsUsed part.now }
    ensures unused { result ≡ false → (b : ℕ) → b < 16 → owns part.now b ≡ false }
{
    for bucket in 0..16u8 {
        if part.has(bucket) {
            return true;
        }
    }
    false
}

// Appends the rows of a bucket to its file, in their order.
fn append_share<F: StoredFile, Z: SealCopy, S: Store<File = F, Seal = Z>>(
    alloc: Global,
    part: &mut LanePart<F, Z>,
    store: &mut S,
    kinds: &Kinds,
    shares: &[Share],
    bucket: u8,
) -> Result<(), StoreFault>
    requires in_range { bucket < 16 }
    requires here { owns part.old bucket ≡ true }
    requires whole { (file_of part.old.files bucket).torn ≡ false }
    requires some_kinds { 0 < length kinds.now }
    requires few_kinds { length kinds.now ≤ 64 }
    requires shares { length shares.now ≡ 16 }
    requires fit { All (Fits kinds.now) (share_in shares.now bucket) }
    ensures head { HasSameHead part.old part.new }
    ensures others { (b : ℕ) → b ≢ bucket → file_of part.new.files b ≡ file_of part.old.files b }
    ensures written { OnOk result (IsWritten F.tells kinds.now (share_in shares.now bucket) (file_of part.old.files bucket) (file_of part.new.files bucket)) }
    ensures begun { IsBegun F.tells kinds.now (share_in shares.now bucket) (file_of part.old.files bucket) (file_of part.new.files bucket) }
    ensures not_torn { IsErrOf result StoreFault.NoMemory → (file_of part.new.files bucket).torn ≡ false }

    ensures cause { IsErrOf result StoreFault.Failed → Rose (S.faults store.old) (S.faults store.new) }
    ensures store { GoesOn S.faults S.given S.sound store.old store.new }
{
    let rows = rows_in(kinds, shares, bucket);
    part.append_chosen(alloc, store, kinds, bucket, rows)
}

// Appends the rows of a bucket to its file, if the part has it.
fn write_bucket<F: StoredFile, Z: SealCopy, S: Store<File = F, Seal = Z>>(
    alloc: Global,
    part: &mut LanePart<F, Z>,
    store: &mut S,
    kinds: &Kinds,
    shares: &[Share],
    bucket: u8,
) -> Result<(), StoreFault>
    requires in_range { bucket < 16 }
    requires whole { owns part.old bucket ≡ true → (file_of part.old.files bucket).torn ≡ false }
    requires some_kinds { 0 < length kinds.now }
    requires few_kinds { length kinds.now ≤ 64 }
    requires shares { length shares.now ≡ 16 }
    requires fit { (b : ℕ) → b < 16 → All (Fits kinds.now) (share_in shares.now b) }
    ensures head { HasSameHead part.old part.new }
    ensures others { (b : ℕ) → b ≢ bucket → file_of part.new.files b ≡ file_of part.old.files b }
    ensures written { OnOk result (owns part.old bucket ≡ true
        → IsWritten F.tells kinds.now (share_in shares.now bucket) (file_of part.old.files bucket) (file_of part.new.files bucket)) }
    ensures begun { owns part.old bucket ≡ true
        → IsBegun F.tells kinds.now (share_in shares.now bucket) (file_of part.old.files bucket) (file_of part.new.files bucket) }
    ensures not_torn { IsErrOf result StoreFault.NoMemory → owns part.old bucket ≡ true → (file_of part.new.files bucket).torn ≡ false }

    ensures cause { IsErrOf result StoreFault.Failed → Rose (S.faults store.old) (S.faults store.new) }
    ensures store { GoesOn S.faults S.given S.sound store.old store.new }
{
    if part.has(bucket) {
        return append_share(alloc, part, store, kinds, shares, bucket);
    }
    Ok(())
}

// Appends the rows of each bucket that the part has to its file.
fn write_part<F: StoredFile, Z: SealCopy, S: Store<File = F, Seal = Z>>(
    alloc: Global,
    part: &mut LanePart<F, Z>,
    store: &mut S,
    kinds: &Kinds,
    shares: &[Share],
) -> Result<(), StoreFault>
    requires whole { IsWholePart part.old }
    requires some_kinds { 0 < length kinds.now }
    requires few_kinds { length kinds.now ≤ 64 }
    requires shares { length shares.now ≡ 16 }
    requires fit { (b : ℕ) → b < 16 → All (Fits kinds.now) (share_in shares.now b) }
    ensures head { HasSameHead part.old part.new }
    ensures written { OnOk result (WritesPart F.tells kinds.now (share_in shares.now) part.old part.new) }
    ensures begun { BeginsPart F.tells kinds.now (share_in shares.now) part.old part.new }
    ensures whole { OnOk result (IsWholePart part.new) }
    ensures not_torn { IsErrOf result StoreFault.NoMemory → IsWholePart part.new }

    ensures cause { IsErrOf result StoreFault.Failed → Rose (S.faults store.old) (S.faults store.new) }
    ensures store { GoesOn S.faults S.given S.sound store.old store.new }
{
    for bucket in 0..16u8 {
        write_bucket(alloc, part, store, kinds, shares, bucket)?;
    }
    Ok(())
}

// What a fault of the store means for a task.
fn trouble_of(fault: StoreFault) -> Trouble
    ensures failed { result ≡ Trouble.Store → fault ≡ StoreFault.Failed }
    ensures no_memory { result ≡ Trouble.NoMemory → fault ≡ StoreFault.NoMemory }
    ensures not_host { result ≡ Trouble.Host → ⊥ }
{
    match fault {
        StoreFault::Failed => Trouble::Store,
        StoreFault::NoMemory => Trouble::NoMemory,
    }
}

impl<F: StoredFile, Z: SealCopy, S: Store<File = F, Seal = Z>, H: Host, L> Task<S, H, L, F, Z> {
    // Checks the host once, and appends the rows of each bucket that the part has to its file. Where it has none, nothing
    // is done.
    fn run(&mut self, alloc: Global, kinds: &Kinds, shares: &[Share])
        requires whole { IsWholePart self.old.part.value }
        requires some_kinds { 0 < length kinds.now }
        requires few_kinds { length kinds.now ≤ 64 }
        requires shares { length shares.now ≡ 16 }
        requires fit { (b : ℕ) → b < 16 → All (Fits kinds.now) (share_in shares.now b) }
        ensures head { HasSameHead self.old.part.value self.new.part.value }
        ensures written { OnOk self.new.outcome (WritesPart F.tells kinds.now (share_in shares.now) self.old.part.value self.new.part.value) }
        ensures begun { BeginsPart F.tells kinds.now (share_in shares.now) self.old.part.value self.new.part.value }
        ensures whole { UnlessStore self.new.outcome (IsWholePart self.new.part.value) }

        ensures link { self.new.bench.link ≡ self.old.bench.link }
        ensures unused { (IsUsed self.old.part.value → ⊥) → self.new.bench ≡ self.old.bench }
        ensures answered { UnlessHost self.new.outcome (IsUsed self.old.part.value → HasAnswered H.checks H.faults self.old.bench.host self.new.bench.host) }
        ensures held { UnlessHost self.new.outcome (H.faults self.new.bench.host ≡ H.faults self.old.bench.host) }
        ensures host_used { IsErrOf self.new.outcome Trouble.Host → IsUsed self.old.part.value }
        ensures host_rose { IsErrOf self.new.outcome Trouble.Host → Rose (H.faults self.old.bench.host) (H.faults self.new.bench.host) }
        ensures store_used { IsErrOf self.new.outcome Trouble.Store → IsUsed self.old.part.value }
        ensures store_rose { IsErrOf self.new.outcome Trouble.Store → Rose (S.faults self.old.bench.store) (S.faults self.new.bench.store) }
        ensures host { IsSteady H.faults H.sound self.old.bench.host self.new.bench.host }
        ensures store { GoesOn S.faults S.given S.sound self.old.bench.store self.new.bench.store }
    {
        if !is_used(&self.part) {
            self.outcome = Ok(());
            return;
        }
        if self.bench.host.check().is_err() {
            self.outcome = Err(Trouble::Host);
            return;
        }
        match write_part(alloc, &mut self.part, &mut self.bench.store, kinds, shares) {
            Ok(()) => self.outcome = Ok(()),
            Err(fault) => self.outcome = Err(trouble_of(fault)),
        }
    }

    /// Checks the host once, and appends the rows of each bucket that the part has to its file. Where it has none, nothing
    /// is done.
    pub(crate) fn work(&mut self, alloc: Global, kinds: &Kinds, shares: &[Share])
        requires whole { IsWholePart self.old.part.value }
        requires some_kinds { 0 < length kinds.now }
        requires few_kinds { length kinds.now ≤ 64 }
        requires shares { length shares.now ≡ 16 }
        requires fit { (b : ℕ) → b < 16 → All (Fits kinds.now) (share_in shares.now b) }
        ensures { HasRun F.tells kinds.now (share_in shares.now) H.checks H.faults H.sound S.faults S.given S.sound self.old self.new }
    {
        self.run(alloc, kinds, shares);
    }
}
