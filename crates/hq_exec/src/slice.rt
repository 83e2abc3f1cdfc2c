//! Slices.
ghost use Rattle.std.specs.Prelude.{◌≡◌, ◌<◌, ◌≤◌, List, Some, length, slice_get, option_map, IsTrue, IsErrOf, IfOk};
ghost use Rattle.hq_value.specs.Causes.{Rose, IsSteady, GoesOnGiving};
ghost use Rattle.hq_value.specs.declared.kind.Kind.{Kind as Sort};
ghost use Rattle.hq_algebra.specs.declared.op.Op.{Op as Operator};
ghost use Rattle.hq_algebra.specs.Operators.{op_kinds};
ghost use Rattle.hq_fits.specs.Supplied.{AreFit};
ghost use Rattle.hq_exec.specs.Ends.{IfBadBlock, OnRead, IsNumericAt, OnStore, OnHost, OffHost, IfBad, IfDone, IfRows, IsBadIn, end_of, as_flow};
ghost use Rattle.hq_exec.specs.Files.{held};
ghost use Rattle.hq_exec.specs.Outs.{Accepts};
ghost use Rattle.hq_exec.specs.Ran.{HasPut, Flowed};
ghost use Rattle.hq_exec.specs.Slices.{IsSliceOf, HasSlice, HasInputs, HasSeals, HasOwn, slice_rows, slice_fault, slice_reads};

use crate::builds::flow;
use crate::end::{Ending, FlowEnd, SliceEnd};
use crate::held::Held;
use crate::out::{RowList, RowOut};
use hq_algebra::{Op, Plan};
use hq_detect::Host;
use hq_lane::Lane;
use hq_planwire::{PlanFault, decode_plan};
use hq_snap::TableSnap;
use hq_store::Store;
use hq_value::Row;
use std::alloc::Global;

/// Runs a slice of a plan in bytes on its node. The host is checked once. Then the given buckets of every scanned table
/// are read, bucket by bucket: the blocks that were committed when the tables were looked at, lane by lane, and those of
/// the own lanes. A block is skipped where its bounds show that none of its rows passes the Filter directly above the Scan.
/// Rows pass block by block through the operators and are put as they come; nothing is kept. `incoming` has the rows of each
/// slice that is received, of all its senders, ascending.
///
/// After Numeric all files are read to their ends, so that a fault of the store goes before it. Store and Host come only
/// where that count rose. The call is nested at most 2,101 deep.
pub fn flow_slice<S: Store, H: Host, O: RowOut>(
    alloc: Global,
    store: &mut S,
    host: &mut H,
    plan: &[u8],
    slice: u8,
    buckets: &[u8],
    tables: &[TableSnap<S::Seal>],
    own: &[Lane<S::File, S::Seal>],
    incoming: &[(u8, Vec<Row>)],
    out: &mut O,
) -> FlowEnd
    requires slice { HasSlice plan.now slice }
    requires inputs { (root : Operator) → IsSliceOf plan.now slice root → HasInputs (held tables.now own.now buckets.now incoming.now) root }
    requires seals { IsTrue S.Seal.tells → (root : Operator) → IsSliceOf plan.now slice root
        → HasSeals (held tables.now own.now buckets.now incoming.now) root }
    requires own { IsTrue S.File.tells → (root : Operator) → IsSliceOf plan.now slice root
        → HasOwn (held tables.now own.now buckets.now incoming.now) root }
    requires accepts { (root : Operator) (kinds : List Sort) → IsSliceOf plan.now slice root → op_kinds root ≡ Some kinds
        → Accepts (O.state out.old).kinds kinds }
    ensures rows { (root : Operator) → IsSliceOf plan.now slice root → IfDone result (HasPut (IsTrue S.Seal.tells × IsTrue S.File.tells) root
        (slice_rows (held tables.now own.now buckets.now incoming.now) root) (O.state out.old) (O.state out.new)) }
    ensures numeric { IsTrue S.Seal.tells → IsTrue S.File.tells → (root : Operator) → IsSliceOf plan.now slice root
        → IsNumericAt result (slice_fault (held tables.now own.now buckets.now incoming.now) root) }
    ensures gave { IsTrue S.Seal.tells → IsTrue S.File.tells → (root : Operator) → IsSliceOf plan.now slice root
        → OnRead result (GoesOnGiving S.faults S.given S.sound (slice_reads (held tables.now own.now buckets.now incoming.now) root) store.old store.new) }
    ensures bad { (root : Operator) → IsSliceOf plan.now slice root → IfBad result (IsBadIn root buckets.now) }
    ensures never_bad { IsTrue S.Seal.tells → IsTrue S.File.tells → IfBad result (λ _ _ _. ⊥) }
    ensures kinds { (O.state out.new).kinds ≡ (O.state out.old).kinds }

    ensures cause { OnStore result (Rose (S.faults store.old) (S.faults store.new)) }
    ensures store { IsSteady S.faults S.sound store.old store.new }
    ensures checked { Rose (H.checks host.old) (H.checks host.new) }
    ensures host_cause { OnHost result (Rose (H.faults host.old) (H.faults host.new)) }
    ensures host_held { OffHost result (H.faults host.new ≡ H.faults host.old) }
    ensures host_later { H.faults host.old ≤ H.faults host.new }
    ensures host_sure { OnHost result (H.sound host.old → ⊥) }
    ensures host_sound { H.sound host.old → H.sound host.new }
{
    // What was given before has a number of 64 bits.
    let _given = store.given();
    match host.check() {
        Err(_) => FlowEnd::Host,
        Ok(()) => {
            let node = Held {
                tables,
                own,
                buckets,
                incoming,
            };
            flow_end(flow_plan(alloc, store, &node, plan, slice, out))
        }
    }
}

// The same after the host was checked: puts the rows of the slice, and tells whether an evaluation faulted.
fn flow_plan<S: Store, O: RowOut>(
    alloc: Global,
    store: &mut S,
    node: &Held<S::File, S::Seal>,
    plan: &[u8],
    slice: u8,
    out: &mut O,
) -> Result<bool, Ending>
    requires slice { HasSlice plan.now slice }
    requires inputs { (root : Operator) → IsSliceOf plan.now slice root → HasInputs node.now root }
    requires seals { IsTrue S.Seal.tells → (root : Operator) → IsSliceOf plan.now slice root → HasSeals node.now root }
    requires own { IsTrue S.File.tells → (root : Operator) → IsSliceOf plan.now slice root → HasOwn node.now root }
    requires accepts { (root : Operator) (kinds : List Sort) → IsSliceOf plan.now slice root → op_kinds root ≡ Some kinds
        → Accepts (O.state out.old).kinds kinds }
    ensures flowed { (root : Operator) → IsSliceOf plan.now slice root → IfOk result (λ fault. Flowed S.faults S.given S.sound
        (IsTrue S.Seal.tells × IsTrue S.File.tells) node.now root fault store.old store.new (O.state out.old) (O.state out.new)) }
    ensures bad { (root : Operator) → IsSliceOf plan.now slice root → IfBadBlock result (IsBadIn root node.now.buckets) }
    ensures never_bad { IsTrue S.Seal.tells → IsTrue S.File.tells → IfBadBlock result (λ _ _ _. ⊥) }
    ensures kinds { (O.state out.new).kinds ≡ (O.state out.old).kinds }

    ensures cause { IsErrOf result Ending.Store → Rose (S.faults store.old) (S.faults store.new) }
    ensures store { IsSteady S.faults S.sound store.old store.new }
{
    match decode_plan(alloc, plan) {
        Ok(found) => {
            let root = root_of(&found, slice);
            flow(alloc, store, node, root, out)
        }
        Err(PlanFault::NotAPlan) => unreachable!(),
        Err(PlanFault::NoMemory) => Err(Ending::NoMemory),
    }
}

// The root of a slice.
fn root_of(plan: &Plan, slice: u8) -> &Op
    requires { slice < length plan.now.slices }
    ensures { option_map (λ s. s.root) (slice_get plan.now.slices slice) ≡ Some result.now }
{
    &plan.slices.as_slice()[slice as usize].root
}

fn flow_end(flowed: Result<bool, Ending>) -> FlowEnd
    ensures { result ≡ end_of flowed }
{
    match flowed {
        Ok(false) => FlowEnd::Done,
        Ok(true) => FlowEnd::Numeric,
        Err(Ending::Store) => FlowEnd::Store,
        Err(Ending::BadBlock { file, at, bytes }) => FlowEnd::BadBlock { file, at, bytes },
        Err(Ending::NoMemory) => FlowEnd::NoMemory,
    }
}

/// The same into a list.
pub fn run_slice<S: Store, H: Host>(
    alloc: Global,
    store: &mut S,
    host: &mut H,
    plan: &[u8],
    slice: u8,
    buckets: &[u8],
    tables: &[TableSnap<S::Seal>],
    own: &[Lane<S::File, S::Seal>],
    incoming: &[(u8, Vec<Row>)],
) -> SliceEnd
    requires slice { HasSlice plan.now slice }
    requires inputs { (root : Operator) → IsSliceOf plan.now slice root → HasInputs (held tables.now own.now buckets.now incoming.now) root }
    requires seals { IsTrue S.Seal.tells → (root : Operator) → IsSliceOf plan.now slice root
        → HasSeals (held tables.now own.now buckets.now incoming.now) root }
    requires own { IsTrue S.File.tells → (root : Operator) → IsSliceOf plan.now slice root
        → HasOwn (held tables.now own.now buckets.now incoming.now) root }
    ensures rows { IsTrue S.Seal.tells → IsTrue S.File.tells → (root : Operator) → IsSliceOf plan.now slice root
        → IfRows result (λ rows. rows ≡ slice_rows (held tables.now own.now buckets.now incoming.now) root) }
    ensures fit { (root : Operator) (kinds : List Sort) → IsSliceOf plan.now slice root → op_kinds root ≡ Some kinds → IfRows result (AreFit kinds) }
    ensures numeric { IsTrue S.Seal.tells → IsTrue S.File.tells → (root : Operator) → IsSliceOf plan.now slice root
        → IsNumericAt (as_flow result) (slice_fault (held tables.now own.now buckets.now incoming.now) root) }
    ensures gave { IsTrue S.Seal.tells → IsTrue S.File.tells → (root : Operator) → IsSliceOf plan.now slice root
        → OnRead (as_flow result) (GoesOnGiving S.faults S.given S.sound (slice_reads (held tables.now own.now buckets.now incoming.now) root) store.old store.new) }
    ensures bad { (root : Operator) → IsSliceOf plan.now slice root → IfBad (as_flow result) (IsBadIn root buckets.now) }
    ensures never_bad { IsTrue S.Seal.tells → IsTrue S.File.tells → IfBad (as_flow result) (λ _ _ _. ⊥) }

    ensures cause { OnStore (as_flow result) (Rose (S.faults store.old) (S.faults store.new)) }
    ensures store { IsSteady S.faults S.sound store.old store.new }
    ensures checked { Rose (H.checks host.old) (H.checks host.new) }
    ensures host_cause { OnHost (as_flow result) (Rose (H.faults host.old) (H.faults host.new)) }
    ensures host_held { OffHost (as_flow result) (H.faults host.new ≡ H.faults host.old) }
    ensures host_later { H.faults host.old ≤ H.faults host.new }
    ensures host_sure { OnHost (as_flow result) (H.sound host.old → ⊥) }
    ensures host_sound { H.sound host.old → H.sound host.new }
{
    let mut list = RowList::new(alloc);
    let end = flow_slice(
        alloc, store, host, plan, slice, buckets, tables, own, incoming, &mut list,
    );
    slice_end(end, list.into_rows())
}

fn slice_end(end: FlowEnd, rows: Vec<Row>) -> SliceEnd
    ensures as_flow { as_flow result ≡ end }
    ensures rows { IfRows result (λ found. found ≡ rows.items) }
{
    match end {
        FlowEnd::Done => SliceEnd::Rows(rows),
        FlowEnd::Numeric => SliceEnd::Numeric,
        FlowEnd::Store => SliceEnd::Store,
        FlowEnd::Host => SliceEnd::Host,
        FlowEnd::BadBlock { file, at, bytes } => SliceEnd::BadBlock { file, at, bytes },
        FlowEnd::NoMemory => SliceEnd::NoMemory,
    }
}
