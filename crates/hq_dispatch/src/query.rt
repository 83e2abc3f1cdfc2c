//! A query over nodes.
ghost use Rattle.std.specs.Prelude.{◌≡◌, ◌+◌, ◌-◌, ◌^◌, ◌<◌, ℕ, true, false, length, slice_index_or, vec_len, IsTrue, IfErr, OnOk};
ghost use Rattle.std.specs.List.{AllByRecursion};
ghost use Rattle.hq_value.specs.Causes.{Rose, RoseBy, IsSteady, GoesOnGiving};
ghost use Rattle.hq_value.specs.Marks.{some_up};
ghost use Rattle.hq_algebra.specs.declared.op.Op.{Op as Operator};
ghost use Rattle.hq_algebra.specs.Plans.{is_well_formed, all_operators};
ghost use Rattle.hq_exec.specs.Slices.{IsSliceOf, SealsStand, OwnStand};
ghost use Rattle.hq_meaning.specs.Plans.{plan_mean};
ghost use Rattle.hq_pump.specs.Promise.{IsRoughAtMost};
ghost use Rattle.hq_pump.specs.Pumping.{IsLost};
ghost use Rattle.hq_pump.specs.Safe.{AreEarlier};
ghost use Rattle.hq_dispatch.specs.Basis.{asked, all_held, node_reads, parts_of, IsScanned};
ghost use Rattle.hq_dispatch.specs.Each.{At, Each};
ghost use Rattle.hq_dispatch.specs.Ended.{benches_of, HasEnded, IsBadOf, OnRows};
ghost use Rattle.hq_dispatch.specs.Ends.{IfMeant, OnStore, IfHost, IfLinkLost, IfLinkFailed, IfBadBlock, HasAnswered, Fails};
ghost use Rattle.hq_dispatch.specs.Finished.{end_at, HasFinished};
ghost use Rattle.hq_dispatch.specs.Outside.{outside};
ghost use Rattle.hq_dispatch.specs.Owners.{owners, is_used};
ghost use Rattle.hq_dispatch.specs.Received.{GoesOnFor};
ghost use Rattle.hq_dispatch.specs.Running.{CanRead};
ghost use Rattle.hq_dispatch.specs.Standing.{IsAsked, LinksTell, Stands};
ghost use Rattle.hq_dispatch.specs.Streams.{plan_pieces};

use crate::basis::Basis;
use crate::buckets::buckets_of;
use crate::end::QueryEnd;
use crate::moves::{from_tasks, tasks_of};
use crate::owners::owners;
use crate::spread::spread;
use crate::task::Task;
use hq_algebra::Plan;
use hq_detect::{Benches, Host};
use hq_exec::{SliceEnd, run_slice};
use hq_lane::Lane;
use hq_link::Link;
use hq_planwire::encode_plan;
use hq_snap::TableSnap;
use hq_store::Store;
use hq_value::Marks;
use std::alloc::Global;
use std::thread::Threads;

// How a query ends by its last slice.
fn end_at(end: SliceEnd, node: u8) -> QueryEnd
    ensures { result ≡ end_at node end }
{
    match end {
        SliceEnd::Rows(rows) => QueryEnd::Rows(rows),
        SliceEnd::Numeric => QueryEnd::Numeric,
        SliceEnd::Store => QueryEnd::Store,
        SliceEnd::Host => QueryEnd::Host { node },
        SliceEnd::BadBlock { file, at, bytes } => QueryEnd::BadBlock {
            node,
            file,
            at,
            bytes,
        },
        SliceEnd::NoMemory => QueryEnd::NoMemory,
    }
}

// Runs the last slice on its node.
fn finish<S: Store, H: Host, L: Link>(
    alloc: Global,
    basis: &Basis<S::File, S::Seal>,
    slice: u8,
    node: u8,
    task: &mut Task<S, H, L>,
) -> QueryEnd
    requires { CanRead S.Seal.tells S.File.tells basis.now slice node task.old.incoming.items }
    ensures { (root : Operator) → IsSliceOf basis.now.plan slice root
        → HasFinished (outside S.faults S.given S.sound H.checks H.faults H.sound L.state) (IsTrue S.Seal.tells × IsTrue S.File.tells)
        basis.now root node task.old task.new result }
{
    let (buckets, count) = buckets_of(basis.owner(), node);
    let end = run_slice(
        alloc,
        &mut task.bench.store,
        &mut task.bench.host,
        basis.plan(),
        slice,
        &buckets[..count],
        basis.tables(),
        basis.own(),
        task.incoming.as_slice(),
    );
    end_at(end, node)
}

// The number of the last slice.
fn last_slice(plan: &Plan) -> u8
    requires { IsTrue (is_well_formed plan.now) }
    ensures { result + 1 ≡ length plan.now.slices }
{
    (plan.slices.len() - 1) as u8
}

// Runs the slices but the last, one after another.
fn spread_all<R, S, H, L>(
    rt: &R,
    alloc: Global,
    basis: &Basis<S::File, S::Seal>,
    plan: &Plan,
    marks: &Marks,
    query: u64,
    tasks: &mut Vec<Task<S, H, L>>,
) -> Result<(), QueryEnd>
where
    R: Threads + Sync,
    S: Store + Send,
    S::File: Sync,
    S::Seal: Sync,
    H: Host + Send,
    L: Link + Send,
    requires asked { IsAsked (asked plan.now basis.now marks.now query S.Seal.tells S.File.tells) }
    requires many { vec_len tasks.old ≡ length marks.now }
    requires stands { Stands (outside S.faults S.given S.sound H.checks H.faults H.sound L.state)
        (asked plan.now basis.now marks.now query S.Seal.tells S.File.tells) (benches_of tasks.old.items) 0 tasks.old.items }
    ensures len { vec_len tasks.new ≡ vec_len tasks.old }
    ensures stands { OnOk result (Stands (outside S.faults S.given S.sound H.checks H.faults H.sound L.state)
        (asked plan.now basis.now marks.now query S.Seal.tells S.File.tells) (benches_of tasks.old.items) (length plan.now.slices - 1) tasks.new.items) }
    ensures ends { IfErr result (HasEnded (outside S.faults S.given S.sound H.checks H.faults H.sound L.state)
        (asked plan.now basis.now marks.now query S.Seal.tells S.File.tells) (benches_of tasks.old.items) (benches_of tasks.new.items)) }
{
    let last = last_slice(plan);
    for slice in 0..last {
        spread(rt, alloc, basis, plan, slice, marks, query, tasks)?;
    }
    Ok(())
}

// Runs all slices.
fn run_slices<R, S, H, L>(
    rt: &R,
    alloc: Global,
    basis: &Basis<S::File, S::Seal>,
    plan: &Plan,
    marks: &Marks,
    query: u64,
    tasks: &mut Vec<Task<S, H, L>>,
) -> QueryEnd
where
    R: Threads + Sync,
    S: Store + Send,
    S::File: Sync,
    S::Seal: Sync,
    H: Host + Send,
    L: Link + Send,
    requires asked { IsAsked (asked plan.now basis.now marks.now query S.Seal.tells S.File.tells) }
    requires many { vec_len tasks.old ≡ length marks.now }
    requires stands { Stands (outside S.faults S.given S.sound H.checks H.faults H.sound L.state)
        (asked plan.now basis.now marks.now query S.Seal.tells S.File.tells) (benches_of tasks.old.items) 0 tasks.old.items }
    ensures len { vec_len tasks.new ≡ vec_len tasks.old }
    ensures ended { HasEnded (outside S.faults S.given S.sound H.checks H.faults H.sound L.state)
        (asked plan.now basis.now marks.now query S.Seal.tells S.File.tells) (benches_of tasks.old.items) (benches_of tasks.new.items) result }
{
    match spread_all(rt, alloc, basis, plan, marks, query, tasks) {
        Ok(()) => {
            let last = last_slice(plan);
            let owner = basis.owner();
            let node = owner[0];
            finish(alloc, basis, last, node, &mut tasks[node as usize])
        }
        Err(end) => end,
    }
}

/// Answers a query by its plan, over the seals of the tables and over the own lanes. The slices run one after another, the
/// nodes that run one all at once, each after one check of its host. The rows of a slice go to their receivers by one
/// exchange for each over its link, and those of the last slice, which runs on the lowest node in use, are the answer.
/// Where seals, files and the links in use tell their contents, it is what the plan means. A store gives exactly what the
/// slices read of its node's buckets, and a link at least the pieces of its node's streams.
///
/// The benches stay in their order, and those of nodes that are down stay as they are. Of several faults in one slice the
/// answer is that of the lowest node, there the store's before the host's before the link's, and it goes before Numeric.
/// Each has its cause in the counts of that node's bench, and the hosts of the nodes below answered. Only datagrams of
/// this query are sent.
pub fn run_query<R, S, H, L>(
    rt: &R,
    alloc: Global,
    benches: &mut Benches<S, H, L>,
    plan: &Plan,
    marks: &Marks,
    tables: &[TableSnap<S::Seal>],
    own: &[Lane<S::File, S::Seal>],
    query: u64,
) -> QueryEnd
where
    R: Threads + Sync,
    S: Store + Send,
    S::File: Sync,
    S::Seal: Sync,
    H: Host + Send,
    L: Link + Send,
    requires well_formed { IsTrue (is_well_formed plan.now) }
    requires tables { AllByRecursion (IsScanned tables.now) (all_operators plan.now.slices) }
    requires seals { IsTrue S.Seal.tells → AllByRecursion (SealsStand (all_held tables.now own.now)) (all_operators plan.now.slices) }
    requires own { IsTrue S.File.tells → AllByRecursion (OwnStand (all_held tables.now own.now)) (all_operators plan.now.slices) }
    requires up { IsTrue (some_up marks.now) }
    requires nodes { length benches.old.items ≡ length marks.now }
    requires earlier { (n : ℕ) (d : _) → n < length benches.old.items
        → AreEarlier query 0 (L.state (slice_index_or benches.old.items n d).link).may }
    ensures count { length benches.new.items ≡ length benches.old.items }
    ensures means { IsTrue S.Seal.tells → IsTrue S.File.tells → LinksTell L.state marks.now benches.old.items
        → IfMeant result (λ answer. answer ≡ plan_mean plan.now (parts_of tables.now own.now) (owners marks.now)) }
    ensures gave { IsTrue S.Seal.tells → IsTrue S.File.tells → OnRows result ((n : ℕ) → is_used marks.now n ≡ true
        → At n benches.old.items benches.new.items (λ a b. GoesOnGiving S.faults S.given S.sound
        (node_reads tables.now own.now (owners marks.now) n plan.now.slices) a.store b.store)) }
    ensures received { IsTrue S.Seal.tells → IsTrue S.File.tells → LinksTell L.state marks.now benches.old.items → OnRows result ((n : ℕ) → is_used marks.now n ≡ true
        → At n benches.old.items benches.new.items (λ a b. RoseBy (plan_pieces plan.now (parts_of tables.now own.now) (owners marks.now) n)
        (L.state a.link).given (L.state b.link).given)) }
    ensures answered { OnRows result ((n : ℕ) → is_used marks.now n ≡ true
        → At n benches.old.items benches.new.items (λ a b. HasAnswered H.checks H.faults a.host b.host)) }

    ensures store_cause { OnStore result ((node : ℕ) × Fails (is_used marks.now) benches.old.items benches.new.items
        (λ a b. HasAnswered H.checks H.faults a.host b.host) (λ a b. Rose (S.faults a.store) (S.faults b.store)) (node + 1) node) }
    ensures host_cause { IfHost result (λ node. Fails (is_used marks.now) benches.old.items benches.new.items
        (λ a b. HasAnswered H.checks H.faults a.host b.host) (λ a b. Rose (H.faults a.host) (H.faults b.host)) node node) }
    ensures host_sure { IfHost result (λ node. At node benches.old.items benches.new.items (λ a b. H.sound a.host → ⊥)) }
    ensures lost_cause { IfLinkLost result (λ node. Fails (is_used marks.now) benches.old.items benches.new.items
        (λ a b. HasAnswered H.checks H.faults a.host b.host) (λ a b. IsLost (L.state a.link).troubles (L.state b.link).troubles) 16 node) }
    ensures lost_sure { IfLinkLost result (λ node. At node benches.old.items benches.new.items
        (λ a b. IsRoughAtMost 15 (L.state a.link) → (L.state b.link).troubles < 2 ^ 64 - 1 → ⊥)) }
    ensures failed_cause { IfLinkFailed result (λ node. Fails (is_used marks.now) benches.old.items benches.new.items
        (λ a b. HasAnswered H.checks H.faults a.host b.host) (λ a b. Rose (L.state a.link).faults (L.state b.link).faults) 16 node) }
    ensures failed_sure { IfLinkFailed result (λ node. At node benches.old.items benches.new.items
        (λ a b. IsRoughAtMost 15 (L.state a.link) → (L.state b.link).troubles < 2 ^ 64 - 1 → ⊥)) }
    ensures bad { IfBadBlock result (λ node file at bytes. Fails (is_used marks.now) benches.old.items benches.new.items
        (λ a b. HasAnswered H.checks H.faults a.host b.host) (λ a b. IsBadOf plan.now (owners marks.now) node file at bytes) (node + 1) node) }
    ensures never_bad { IsTrue S.Seal.tells → IsTrue S.File.tells → IfBadBlock result (λ _ _ _ _. ⊥) }

    ensures unused { (n : ℕ) → n < length benches.old.items → is_used marks.now n ≡ false → At n benches.old.items benches.new.items (λ a b. b ≡ a) }
    ensures stores { Each benches.old.items benches.new.items (λ a b. IsSteady S.faults S.sound a.store b.store) }
    ensures hosts { Each benches.old.items benches.new.items (λ a b. IsSteady H.faults H.sound a.host b.host) }
    ensures links { Each benches.old.items benches.new.items (λ a b. GoesOnFor query (L.state a.link) (L.state b.link)) }
{
    let Ok(bytes) = encode_plan(alloc, plan) else {
        return QueryEnd::NoMemory;
    };
    let owner = owners(marks);
    let given = bytes.as_slice();
    let basis = Basis::new(given, &owner, tables, own);
    let Ok(mut tasks) = tasks_of(alloc, benches) else {
        return QueryEnd::NoMemory;
    };
    let end = run_slices(rt, alloc, &basis, plan, marks, query, &mut tasks);
    from_tasks(tasks, benches);
    end
}
