//! A slice run on its node, into the bytes of its rows' receivers.
ghost use Rattle.std.specs.Prelude.{◌≡◌, IsTrue};
ghost use Rattle.hq_algebra.specs.declared.op.Op.{Op as Operator};
ghost use Rattle.hq_exec.specs.Ends.{IfDone};
ghost use Rattle.hq_exec.specs.Slices.{IsSliceOf, slice_rows};
ghost use Rattle.hq_dispatch.specs.Basis.{node_held};
ghost use Rattle.hq_dispatch.specs.Outside.{outside};
ghost use Rattle.hq_dispatch.specs.Running.{CanFlow, HasFlowed, HasSent};

use crate::basis::Basis;
use crate::buckets::buckets_of;
use crate::packing::{Course, Packing};
use crate::parcels::Parcels;
use hq_algebra::Motion;
use hq_detect::{Bench, Host};
use hq_exec::{FlowEnd, flow_slice};
use hq_link::Link;
use hq_store::Store;
use hq_value::{Kinds, Row};
use std::alloc::Global;
use std::marker::Brand;

/// Runs a slice on its node over what it received. The host is checked once. Its rows are put in their receivers' bytes
/// as they come.
pub(crate) fn flow<S: Store, H: Host, L: Link>(
    alloc: Global,
    bench: &mut Bench<S, H, L>,
    basis: &Basis<S::File, S::Seal>,
    slice: u8,
    node: u8,
    incoming: &[(u8, Vec<Row>)],
    out: &Motion,
    kinds: &Kinds,
) -> (FlowEnd, Parcels)
    requires { CanFlow S.Seal.tells S.File.tells basis.now slice node incoming.now out.now kinds.now }
    ensures link { bench.new.link ≡ bench.old.link }
    ensures flowed { (root : Operator) → IsSliceOf basis.now.plan slice root
        → HasFlowed (outside S.faults S.given S.sound H.checks H.faults H.sound L.state) (IsTrue S.Seal.tells × IsTrue S.File.tells)
        (node_held basis.now node incoming.now) root bench.old.store bench.new.store bench.old.host bench.new.host result.0 }
    ensures sent { (root : Operator) → IsSliceOf basis.now.plan slice root
        → IfDone result.0 (HasSent (IsTrue S.Seal.tells × IsTrue S.File.tells) out.now basis.now.owner kinds.now
        (slice_rows (node_held basis.now node incoming.now) root) result.1.lists.items) }
{
    flow_as::<S, H, L, Brand>(alloc, bench, basis, slice, node, incoming, out, kinds)
}

// The same, where clauses have names for the motion and the owners.
fn flow_as<S: Store, H: Host, L: Link, W: Course>(
    alloc: Global,
    bench: &mut Bench<S, H, L>,
    basis: &Basis<S::File, S::Seal>,
    slice: u8,
    node: u8,
    incoming: &[(u8, Vec<Row>)],
    out: &Motion,
    kinds: &Kinds,
) -> (FlowEnd, Parcels)
    requires can { CanFlow S.Seal.tells S.File.tells basis.now slice node incoming.now out.now kinds.now }
    requires out_is { out.now ≡ W.out }
    requires owner_is { basis.now.owner ≡ W.owner }
    ensures link { bench.new.link ≡ bench.old.link }
    ensures flowed { (root : Operator) → IsSliceOf basis.now.plan slice root
        → HasFlowed (outside S.faults S.given S.sound H.checks H.faults H.sound L.state) (IsTrue S.Seal.tells × IsTrue S.File.tells)
        (node_held basis.now node incoming.now) root bench.old.store bench.new.store bench.old.host bench.new.host result.0 }
    ensures sent { (root : Operator) → IsSliceOf basis.now.plan slice root
        → IfDone result.0 (HasSent (IsTrue S.Seal.tells × IsTrue S.File.tells) out.now basis.now.owner kinds.now
        (slice_rows (node_held basis.now node incoming.now) root) result.1.lists.items) }
{
    let (buckets, count) = buckets_of(basis.owner(), node);
    let mut packing: Packing<W> = Packing::new(alloc, out, kinds, basis.owner());
    let end = flow_slice(
        alloc,
        &mut bench.store,
        &mut bench.host,
        basis.plan(),
        slice,
        &buckets[..count],
        basis.tables(),
        basis.own(),
        incoming,
        &mut packing,
    );
    (end, packing.into_parcels())
}
