//! The parts of a lane, written by all nodes at once.
ghost use Rattle.std.specs.Prelude.{◌≡◌, ◌<◌, ◌≤◌, ℕ, All, Ok, Err, length, vec_len, slice_index_or, IsTrue, OnOk, OnErr, IsErrOf};
ghost use Rattle.hq_value.specs.Causes.{IsSteady, GoesOn};
ghost use Rattle.hq_value.specs.Kinds.{Fits};
ghost use Rattle.hq_lane.specs.Lanes.{part_at, HaveSameHeads};
ghost use Rattle.hq_txn.specs.Each.{At, Each};
ghost use Rattle.hq_txn.specs.Ends.{StoreFailed, HostFailed};
ghost use Rattle.hq_txn.specs.InUse.{HasAnswered, HasFailed};
ghost use Rattle.hq_txn.specs.Parts.{IsUsed, IsWholePart, WritesPart, BeginsPart, IsNoFault};
ghost use Rattle.hq_txn.specs.Ran.{HasRun};
ghost use Rattle.hq_txn.specs.Shares.{share_in};

use crate::moves::{from_tasks, tasks_of};
use crate::shares::Share;
use crate::state::WriteEnd;
use crate::task::{Task, Trouble};
use hq_detect::{Benches, Host};
use hq_lane::LanePart;
use hq_store::{SealCopy, Store, StoredFile};
use hq_value::{BUCKETS, Kinds};
use std::alloc::Global;
use std::thread;
use std::thread::Threads;

// So many rows are written sooner than a thread is started for them.
const ROWS_A_THREAD: usize = 4096;

// In how many threads rows are written.
fn threads_for(shares: &[Share]) -> usize
    ensures { 0 < result }
{
    let mut rows: usize = 0;
    for share in shares {
        rows = rows.saturating_add(share.len());
    }
    (rows / ROWS_A_THREAD + 1).min(BUCKETS)
}

// Runs the tasks, in threads of their own where there are rows enough.
fn run_all<R, F, Z, S, H, L>(
    rt: &R,
    alloc: Global,
    tasks: &mut Vec<Task<S, H, L, F, Z>>,
    kinds: &Kinds,
    shares: &[Share],
)
where
    R: Threads + Sync,
    F: StoredFile + Send,
    Z: SealCopy + Send,
    S: Store<File = F, Seal = Z> + Send,
    H: Host + Send,
    L: Send,
    requires some_kinds { 0 < length kinds.now }
    requires few_kinds { length kinds.now ≤ 64 }
    requires shares { length shares.now ≡ 16 }
    requires fit { (b : ℕ) → b < 16 → All (Fits kinds.now) (share_in shares.now b) }
    requires whole { (n : ℕ) (d : _) → n < vec_len tasks.old → IsWholePart (slice_index_or tasks.old.items n d).part.value }
    ensures len { vec_len tasks.new ≡ vec_len tasks.old }
    ensures ran { (n : ℕ) (d : _) → n < vec_len tasks.old → HasRun F.tells kinds.now (share_in shares.now)
        H.checks H.faults H.sound S.faults S.given S.sound (slice_index_or tasks.old.items n d) (slice_index_or tasks.new.items n d) }
{
    let step = |_node: usize, task: &mut Task<S, H, L, F, Z>|
        requires { (0 < length kinds.now) × (length kinds.now ≤ 64) × (length shares.now ≡ 16) × ((b : ℕ) → b < 16 → All (Fits kinds.now) (share_in shares.now b)) × IsWholePart task.now.part.value }
        ensures { HasRun F.tells kinds.entry.now (share_in shares.entry.now) H.checks H.faults H.sound S.faults S.given S.sound task.entry.now task.exit.now }
    { task.work(alloc, kinds, shares) };
    let threads = threads_for(shares);
    thread::for_each_mut(rt, tasks.as_mut_slice(), threads, &step);
}

// The fault of the lowest node, or want of memory where there is none.
fn first_fault<S, H, L, F: StoredFile, Z: SealCopy>(
    tasks: &[Task<S, H, L, F, Z>],
) -> Result<(), WriteEnd>
    requires { length tasks.now ≤ 16 }
    ensures none { OnOk result ((n : ℕ) (d : _) → n < length tasks.now → (slice_index_or tasks.now n d).outcome ≡ Ok tt) }
    ensures store { IsErrOf result WriteEnd.Store → (n : ℕ) × (n < length tasks.now)
        × ((d : _) → (slice_index_or tasks.now n d).outcome ≡ Err Trouble.Store)
        × ((k : ℕ) (d : _) → k < n → IsNoFault (slice_index_or tasks.now k d).outcome) }
    ensures host { (n : ℕ) → IsErrOf result (WriteEnd.Host n) → (n < length tasks.now)
        × ((d : _) → (slice_index_or tasks.now n d).outcome ≡ Err Trouble.Host)
        × ((k : ℕ) (d : _) → k < n → IsNoFault (slice_index_or tasks.now k d).outcome) }
    ensures no_memory { IsErrOf result WriteEnd.NoMemory → (n : ℕ) (d : _) → n < length tasks.now → IsNoFault (slice_index_or tasks.now n d).outcome }
{
    let mut end = Ok(());
    for node in 0..tasks.len() {
        match &tasks[node].outcome {
            Ok(()) => (),
            Err(Trouble::Store) => return Err(WriteEnd::Store),
            Err(Trouble::Host) => return Err(WriteEnd::Host { node: node as u8 }),
            Err(Trouble::NoMemory) => end = Err(WriteEnd::NoMemory),
        }
    }
    end
}

/// Each node with a bench appends to the files of its part the rows of their buckets, all nodes at once. The benches and the
/// parts come back in the same order, whatever the answer.
pub(crate) fn write_parts<R, F, Z, S, H, L>(
    rt: &R,
    alloc: Global,
    benches: &mut Benches<S, H, L>,
    parts: &mut Vec<LanePart<F, Z>>,
    kinds: &Kinds,
    shares: &[Share],
) -> Result<(), WriteEnd>
where
    R: Threads + Sync,
    F: StoredFile + Send,
    Z: SealCopy + Send,
    S: Store<File = F, Seal = Z> + Send,
    H: Host + Send,
    L: Send,
    requires enough { vec_len benches.old ≤ vec_len parts.old }
    requires few { vec_len benches.old ≤ 16 }
    requires some_kinds { 0 < length kinds.now }
    requires few_kinds { length kinds.now ≤ 64 }
    requires shares { length shares.now ≡ 16 }
    requires fit { (b : ℕ) → b < 16 → All (Fits kinds.now) (share_in shares.now b) }
    requires whole { (n : ℕ) → n < vec_len parts.old → IsWholePart (part_at parts.old.items n) }
    ensures heads { HaveSameHeads parts.old.items parts.new.items }
    ensures written { OnOk result ((n : ℕ) → n < vec_len benches.old
        → WritesPart F.tells kinds.now (share_in shares.now) (part_at parts.old.items n) (part_at parts.new.items n)) }
    ensures begun { (n : ℕ) → BeginsPart F.tells kinds.now (share_in shares.now) (part_at parts.old.items n) (part_at parts.new.items n) }
    ensures whole { IsErrOf result WriteEnd.NoMemory → (n : ℕ) → n < vec_len benches.old → IsWholePart (part_at parts.new.items n) }
    ensures whole_before { (n : ℕ) → IsErrOf result (WriteEnd.Host n) → (k : ℕ) → k < n → IsWholePart (part_at parts.new.items k) }

    ensures count { vec_len benches.new ≡ vec_len benches.old }
    ensures links { Each benches.old.items benches.new.items (λ a b. b.link ≡ a.link) }
    ensures unused { (n : ℕ) → n < length benches.old.items → (IsUsed (part_at parts.old.items n) → ⊥) → At n benches.old.items benches.new.items (λ a b. b ≡ a) }
    ensures answered { OnOk result ((n : ℕ) → n < length benches.old.items → IsUsed (part_at parts.old.items n)
        → At n benches.old.items benches.new.items (λ a b. HasAnswered H.checks H.faults a.host b.host)) }
    ensures store_cause { IsErrOf result WriteEnd.Store → StoreFailed (λ n. IsUsed (part_at parts.old.items n)) benches.old.items benches.new.items
        (λ a b. HasAnswered H.checks H.faults a.host b.host) (λ a b. HasFailed S.faults a.store b.store) }
    ensures host_cause { (n : ℕ) → IsErrOf result (WriteEnd.Host n) → HostFailed (λ n. IsUsed (part_at parts.old.items n)) benches.old.items benches.new.items
        (λ a b. HasAnswered H.checks H.faults a.host b.host) (λ a b. HasFailed H.faults a.host b.host) n }
    ensures no_memory { IsErrOf result WriteEnd.NoMemory → Each benches.old.items benches.new.items (λ a b. H.faults b.host ≡ H.faults a.host) }
    ensures hosts { Each benches.old.items benches.new.items (λ a b. IsSteady H.faults H.sound a.host b.host) }
    ensures stores { Each benches.old.items benches.new.items (λ a b. GoesOn S.faults S.given S.sound a.store b.store) }
{
    let Ok(mut tasks) = tasks_of(alloc, benches, parts) else {
        return Err(WriteEnd::NoMemory);
    };
    run_all(rt, alloc, &mut tasks, kinds, shares);
    let end = first_fault(tasks.as_slice());
    from_tasks(tasks, benches, parts);
    end
}
