//! One slice of a query on all its nodes, and the motion behind it.
ghost use Rattle.std.specs.Prelude.{◌≡◌, ◌+◌, ◌<◌, ◌≤◌, ℕ, Some, true, false, take, length, slice_get, slice_index_or, vec_len, IsTrue, IfErr, OnOk};
ghost use Rattle.hq_algebra.specs.declared.op.Op.{Op as Operator};
ghost use Rattle.hq_exec.specs.Slices.{IsSliceOf};
ghost use Rattle.hq_pump.specs.Safe.{AreEarlier};
ghost use Rattle.hq_dispatch.specs.Basis.{asked};
ghost use Rattle.hq_dispatch.specs.Ended.{benches_of, HasEnded};
ghost use Rattle.hq_dispatch.specs.Outside.{outside};
ghost use Rattle.hq_dispatch.specs.Received.{HasGot};
ghost use Rattle.hq_dispatch.specs.Running.{CanFlow, HasRun};
ghost use Rattle.hq_dispatch.specs.Standing.{IsAsked, Stands};

use crate::basis::Basis;
use crate::end::QueryEnd;
use crate::parcels::Parcels;
use crate::parts::{receives_gather, runners, takers};
use crate::settle::{first_fault, first_lost, take_parcels};
use crate::task::Task;
use hq_algebra::{Motion, Plan, Slice, kinds_of};
use hq_detect::Host;
use hq_link::Link;
use hq_store::Store;
use hq_value::{BUCKETS, Kinds, Marks};
use std::alloc::Global;
use std::thread;
use std::thread::Threads;

// In how many threads tasks work of which these have work: each in its own, or one alone in the caller's.
fn threads_for(flags: &[bool; BUCKETS], tasks: usize) -> usize
    ensures { 0 < result }
{
    let busy = flags.iter().filter(|flag| **flag).count();
    if busy < 2 { 1 } else { tasks.max(1) }
}

// Runs a slice on the nodes that run it, all at once.
fn run_all<R, S, H, L>(
    rt: &R,
    alloc: Global,
    basis: &Basis<S::File, S::Seal>,
    slice: u8,
    out: &Motion,
    kinds: &Kinds,
    runs: &[bool; BUCKETS],
    tasks: &mut Vec<Task<S, H, L>>,
)
where
    R: Threads + Sync,
    S: Store + Send,
    S::File: Sync,
    S::Seal: Sync,
    H: Host + Send,
    L: Link + Send,
    requires few { vec_len tasks.old ≤ 16 }
    requires can { (n : ℕ) (d : _) → n < vec_len tasks.old
        → CanFlow S.Seal.tells S.File.tells basis.now slice n (slice_index_or tasks.old.items n d).incoming.items out.now kinds.now }
    ensures len { vec_len tasks.new ≡ vec_len tasks.old }
    ensures ran { (root : Operator) → IsSliceOf basis.now.plan slice root → (n : ℕ) (d : _) → n < vec_len tasks.old
        → HasRun (outside S.faults S.given S.sound H.checks H.faults H.sound L.state) (IsTrue S.Seal.tells × IsTrue S.File.tells)
        basis.now root out.now kinds.now n (slice_index_or runs.now n false) (slice_index_or tasks.old.items n d) (slice_index_or tasks.new.items n d) }
{
    let step = |node: usize, task: &mut Task<S, H, L>|
        requires { (node < 16) × CanFlow S.Seal.tells S.File.tells basis.now slice node task.now.incoming.items out.now kinds.now }
        ensures { (root : Operator) → IsSliceOf basis.entry.now.plan slice root
            → HasRun (outside S.faults S.given S.sound H.checks H.faults H.sound L.state) (IsTrue S.Seal.tells × IsTrue S.File.tells)
            basis.entry.now root out.entry.now kinds.entry.now node (slice_index_or runs.entry.now node false) task.entry.now task.exit.now }
    { task.run(alloc, basis, slice, node as u8, out, kinds, runs[node]) };
    let threads = threads_for(runs, tasks.len());
    thread::for_each_mut(rt, tasks.as_mut_slice(), threads, &step);
}

// Each node that receives rows of a slice takes those of all senders, all at once.
fn take_all<R, S, H, L>(
    rt: &R,
    alloc: Global,
    query: u64,
    slice: u8,
    out: &Motion,
    kinds: &Kinds,
    parcels: &[Parcels],
    sends: &[bool; BUCKETS],
    takes: &[bool; BUCKETS],
    tasks: &mut Vec<Task<S, H, L>>,
)
where
    R: Threads + Sync,
    S: Store + Send,
    S::File: Sync,
    S::Seal: Sync,
    H: Host + Send,
    L: Link + Send,
    requires few { vec_len tasks.old ≤ 16 }
    requires some { 0 < length kinds.now }
    requires there { (s : ℕ) → slice_index_or sends.now s false ≡ true → s < length parcels.now }
    requires earlier { (n : ℕ) (d : _) → n < vec_len tasks.old
        → AreEarlier query slice (L.state (slice_index_or tasks.old.items n d).bench.link).may }
    ensures len { vec_len tasks.new ≡ vec_len tasks.old }
    ensures got { (n : ℕ) (d : _) → n < vec_len tasks.old
        → HasGot (outside S.faults S.given S.sound H.checks H.faults H.sound L.state) query slice kinds.now out.now parcels.now sends.now n
        (slice_index_or takes.now n false) (slice_index_or tasks.old.items n d) (slice_index_or tasks.new.items n d) }
{
    let step = |node: usize, task: &mut Task<S, H, L>|
        requires { (node < 16) × (0 < length kinds.now) × ((s : ℕ) → slice_index_or sends.now s false ≡ true → s < length parcels.now)
            × AreEarlier query slice (L.state task.now.bench.link).may }
        ensures { HasGot (outside S.faults S.given S.sound H.checks H.faults H.sound L.state) query slice kinds.entry.now out.entry.now
            parcels.entry.now sends.entry.now node (slice_index_or takes.entry.now node false) task.entry.now task.exit.now }
    {
        task.take(
            alloc,
            query,
            slice,
            node as u8,
            out,
            kinds,
            parcels,
            sends,
            takes[node],
        )
    };
    let threads = threads_for(takes, tasks.len());
    thread::for_each_mut(rt, tasks.as_mut_slice(), threads, &step);
}

// A slice of a plan.
fn slice_at(plan: &Plan, slice: u8) -> &Slice
    requires { slice < length plan.now.slices }
    ensures { slice_get plan.now.slices slice ≡ Some result.now }
{
    &plan.slices.as_slice()[slice as usize]
}

// The slices of a plan before one.
fn slices_before(plan: &Plan, slice: u8) -> &[Slice]
    requires { slice < length plan.now.slices }
    ensures { result.now ≡ take slice plan.now.slices }
{
    &plan.slices.as_slice()[..slice as usize]
}

/// Runs a slice that is not the last on the nodes that run it, and brings its rows to their receivers.
pub(crate) fn spread<R, S, H, L>(
    rt: &R,
    alloc: Global,
    basis: &Basis<S::File, S::Seal>,
    plan: &Plan,
    slice: u8,
    marks: &Marks,
    query: u64,
    tasks: &mut Vec<Task<S, H, L>>,
) -> Result<(), QueryEnd>
where
    R: Threads + Sync,
    S: Store + Send,
    S::File: Sync,
    S::Seal: Sync,
    H: Host + Send,
    L: Link + Send,
    requires asked { IsAsked (asked plan.now basis.now marks.now query S.Seal.tells S.File.tells) }
    requires within { slice + 1 < length plan.now.slices }
    requires many { vec_len tasks.old ≡ length marks.now }
    requires stands { (first : _) × Stands (outside S.faults S.given S.sound H.checks H.faults H.sound L.state)
        (asked plan.now basis.now marks.now query S.Seal.tells S.File.tells) first slice tasks.old.items }
    ensures len { vec_len tasks.new ≡ vec_len tasks.old }
    ensures stands { (first : _) → Stands (outside S.faults S.given S.sound H.checks H.faults H.sound L.state)
        (asked plan.now basis.now marks.now query S.Seal.tells S.File.tells) first slice tasks.old.items
        → OnOk result (Stands (outside S.faults S.given S.sound H.checks H.faults H.sound L.state)
        (asked plan.now basis.now marks.now query S.Seal.tells S.File.tells) first (slice + 1) tasks.new.items) }
    ensures ends { (first : _) → Stands (outside S.faults S.given S.sound H.checks H.faults H.sound L.state)
        (asked plan.now basis.now marks.now query S.Seal.tells S.File.tells) first slice tasks.old.items
        → IfErr result (HasEnded (outside S.faults S.given S.sound H.checks H.faults H.sound L.state)
        (asked plan.now basis.now marks.now query S.Seal.tells S.File.tells) first (benches_of tasks.new.items)) }
{
    let part = slice_at(plan, slice);
    let Ok(kinds) = kinds_of(alloc, &part.root) else {
        return Err(QueryEnd::NoMemory);
    };
    let before = slices_before(plan, slice);
    let owner = basis.owner();
    let gathered = receives_gather(before, &part.root);
    let runs = runners(marks, owner, gathered);
    run_all(rt, alloc, basis, slice, &part.out, &kinds, &runs, tasks);
    first_fault(tasks)?;
    let parcels = take_parcels(alloc, tasks)?;
    let takes = takers(marks, owner, &part.out);
    let lists = parcels.as_slice();
    take_all(
        rt, alloc, query, slice, &part.out, &kinds, lists, &runs, &takes, tasks,
    );
    let taken = tasks.as_slice();
    first_lost(taken)
}
