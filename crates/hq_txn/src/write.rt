//! Rows written to one lane.
ghost use Rattle.std.specs.Prelude.{◌≡◌, ◌<◌, ◌≤◌, ℕ, All, length, vec_len, slice_index, IfOk, IsTrue, OnOk, OnErr, IsErrOf};
ghost use Rattle.hq_value.specs.Causes.{IsSteady, GoesOn};
ghost use Rattle.hq_value.specs.Kinds.{Fits, kinds_of};
ghost use Rattle.hq_value.specs.Marks.{some_up};
ghost use Rattle.hq_detect.specs.Assign.{owner_of};
ghost use Rattle.hq_lane.specs.Lanes.{LaneState, file_of, AreWhole};
ghost use Rattle.hq_txn.specs.Each.{At, Each};
ghost use Rattle.hq_txn.specs.Ends.{StoreFailed, HostFailed, AreWholeBefore};
ghost use Rattle.hq_txn.specs.InUse.{IsInUse, HasAnswered, HasFailed};
ghost use Rattle.hq_txn.specs.Shares.{share_in};
ghost use Rattle.hq_txn.specs.Writes.{IsWritten, IsBegun, AddsRows, AddsFirst, GainsRows};

use crate::shares::{Share, shares_of};
use crate::state::WriteEnd;
use crate::tasks::write_parts;
use hq_detect::{Benches, Host, assign};
use hq_lane::{Lane, LanePart, parts_make_a_lane};
use hq_store::{SealCopy, Store, StoredFile};
use hq_value::{BUCKETS, Kinds, Marks, NoMemory, Row, TableDef, kinds_of};
use std::alloc::Global;
use std::mem;
use std::thread::Threads;

// The node that owns each bucket, one that there is.
fn owners(marks: &Marks) -> [u8; BUCKETS]
    requires { IsTrue (some_up marks.now) }
    ensures owner { (b : ℕ) → b < 16 → slice_index result b ≡ owner_of marks.now b }
    ensures there { (b : ℕ) → b < 16 → slice_index result b < length marks.now }
    ensures few { length marks.now ≤ 16 }
{
    let _nodes = marks.nodes();
    assign(marks)
}

// Writes the rows of each bucket to its file, each node those of the buckets that it owns. The lane comes back whole.
fn write_shares<R, F, Z, S, H, L>(
    rt: &R,
    alloc: Global,
    lane: Lane<F, Z>,
    benches: &mut Benches<S, H, L>,
    marks: &Marks,
    kinds: &Kinds,
    shares: &[Share],
) -> (Lane<F, Z>, Result<(), WriteEnd>)
where
    R: Threads + Sync,
    F: StoredFile + Send,
    Z: SealCopy + Send,
    S: Store<File = F, Seal = Z> + Send,
    H: Host + Send,
    L: Send,
    requires whole { AreWhole lane.files }
    requires up { IsTrue (some_up marks.now) }
    requires nodes { vec_len benches.old ≡ length marks.now }
    requires some_kinds { 0 < length kinds.now }
    requires few_kinds { length kinds.now ≤ 64 }
    requires shares { length shares.now ≡ 16 }
    requires fit { (b : ℕ) → b < 16 → All (Fits kinds.now) (share_in shares.now b) }
    ensures table { result.0.table ≡ lane.table }
    ensures number { result.0.number ≡ lane.number }
    ensures written { OnOk result.1 ((b : ℕ) → b < 16
        → IsWritten F.tells kinds.now (share_in shares.now b) (file_of lane.files b) (file_of result.0.files b)) }
    ensures begun { (b : ℕ) → b < 16 → IsBegun F.tells kinds.now (share_in shares.now b) (file_of lane.files b) (file_of result.0.files b) }
    ensures whole { IsErrOf result.1 WriteEnd.NoMemory → AreWhole result.0.files }
    ensures whole_before { (n : ℕ) → IsErrOf result.1 (WriteEnd.Host n) → AreWholeBefore marks.now result.0 n }

    ensures count { vec_len benches.new ≡ vec_len benches.old }
    ensures links { Each benches.old.items benches.new.items (λ a b. b.link ≡ a.link) }
    ensures unused { (n : ℕ) → n < length benches.old.items → (IsInUse marks.now n → ⊥) → At n benches.old.items benches.new.items (λ a b. b ≡ a) }
    ensures answered { OnOk result.1 ((n : ℕ) → IsInUse marks.now n
        → At n benches.old.items benches.new.items (λ a b. HasAnswered H.checks H.faults a.host b.host)) }
    ensures store_cause { IsErrOf result.1 WriteEnd.Store → StoreFailed (IsInUse marks.now) benches.old.items benches.new.items
        (λ a b. HasAnswered H.checks H.faults a.host b.host) (λ a b. HasFailed S.faults a.store b.store) }
    ensures host_cause { (n : ℕ) → IsErrOf result.1 (WriteEnd.Host n) → HostFailed (IsInUse marks.now) benches.old.items benches.new.items
        (λ a b. HasAnswered H.checks H.faults a.host b.host) (λ a b. HasFailed H.faults a.host b.host) n }
    ensures no_memory { IsErrOf result.1 WriteEnd.NoMemory → Each benches.old.items benches.new.items (λ a b. H.faults b.host ≡ H.faults a.host) }
    ensures hosts { Each benches.old.items benches.new.items (λ a b. IsSteady H.faults H.sound a.host b.host) }
    ensures stores { Each benches.old.items benches.new.items (λ a b. GoesOn S.faults S.given S.sound a.store b.store) }
{
    let owner = owners(marks);
    match lane.part(alloc, &owner) {
        Err((lane, NoMemory)) => (lane, Err(WriteEnd::NoMemory)),
        Ok(parts) => {
            let mut parts = parts;
            let end = write_parts(rt, alloc, benches, &mut parts, kinds, shares);
            parts_make_a_lane();
            (LanePart::whole(parts), end)
        }
    }
}

// The lane, in whose place one without files stands meanwhile.
fn take_out<F: StoredFile, Z: SealCopy>(alloc: Global, lane: &mut Lane<F, Z>) -> Lane<F, Z>
    ensures { result ≡ lane.old }
{
    match Lane::fresh(alloc, lane.table(), lane.number()) {
        Ok(none) => mem::replace(lane, none),
        Err(NoMemory) => unreachable!(),
    }
}

// Puts the lane back, in place of the one that stood for it.
fn put_back<F: StoredFile, Z: SealCopy>(place: &mut Lane<F, Z>, lane: Lane<F, Z>)
    ensures { place.new ≡ lane }
{
    mem::replace(place, lane).abandon();
}

/// Writes rows of the table to a lane of it, each to the file of its bucket, in their order.
pub(crate) fn write_lane<R, F, Z, S, H, L>(
    rt: &R,
    alloc: Global,
    lane: &mut Lane<F, Z>,
    benches: &mut Benches<S, H, L>,
    marks: &Marks,
    def: &TableDef,
    rows: &[Row],
) -> Result<(), WriteEnd>
where
    R: Threads + Sync,
    F: StoredFile + Send,
    Z: SealCopy + Send,
    S: Store<File = F, Seal = Z> + Send,
    H: Host + Send,
    L: Send,
    requires whole { AreWhole lane.old.files }
    requires up { IsTrue (some_up marks.now) }
    requires nodes { vec_len benches.old ≡ length marks.now }
    requires fit { All (Fits (kinds_of def.now.columns)) rows.now }
    ensures table { lane.new.table ≡ lane.old.table }
    ensures number { lane.new.number ≡ lane.old.number }
    ensures written { OnOk result (AddsRows F.tells def.now rows.now lane.old lane.new) }
    ensures first { AddsFirst F.tells def.now rows.now lane.old lane.new }
    ensures whole { IsErrOf result WriteEnd.NoMemory → AreWhole lane.new.files }
    ensures whole_before { (n : ℕ) → IsErrOf result (WriteEnd.Host n) → AreWholeBefore marks.now lane.new n }

    ensures count { vec_len benches.new ≡ vec_len benches.old }
    ensures links { Each benches.old.items benches.new.items (λ a b. b.link ≡ a.link) }
    ensures unused { (n : ℕ) → n < length benches.old.items → (IsInUse marks.now n → ⊥) → At n benches.old.items benches.new.items (λ a b. b ≡ a) }
    ensures answered { OnOk result ((n : ℕ) → IsInUse marks.now n
        → At n benches.old.items benches.new.items (λ a b. HasAnswered H.checks H.faults a.host b.host)) }
    ensures store_cause { IsErrOf result WriteEnd.Store → StoreFailed (IsInUse marks.now) benches.old.items benches.new.items
        (λ a b. HasAnswered H.checks H.faults a.host b.host) (λ a b. HasFailed S.faults a.store b.store) }
    ensures host_cause { (n : ℕ) → IsErrOf result (WriteEnd.Host n) → HostFailed (IsInUse marks.now) benches.old.items benches.new.items
        (λ a b. HasAnswered H.checks H.faults a.host b.host) (λ a b. HasFailed H.faults a.host b.host) n }
    ensures no_memory { IsErrOf result WriteEnd.NoMemory → Each benches.old.items benches.new.items (λ a b. H.faults b.host ≡ H.faults a.host) }
    ensures hosts { Each benches.old.items benches.new.items (λ a b. IsSteady H.faults H.sound a.host b.host) }
    ensures stores { Each benches.old.items benches.new.items (λ a b. GoesOn S.faults S.given S.sound a.store b.store) }
{
    def.keeps_the_rules();
    let Ok(kinds) = kinds_of(alloc, def.columns().as_slice()) else {
        return Err(WriteEnd::NoMemory);
    };
    let Ok(shares) = shares_of(alloc, def, rows) else {
        return Err(WriteEnd::NoMemory);
    };
    let taken = take_out(alloc, lane);
    let (whole, end) = write_shares(rt, alloc, taken, benches, marks, &kinds, &shares);
    put_back(lane, whole);
    end
}
