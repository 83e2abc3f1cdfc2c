//! What one node does of a slice, and of the motion behind it.
ghost use Rattle.std.specs.Prelude.{◌≡◌, ◌⊎◌, ◌<◌, ◌∷◌, [], ℕ, Ok, Err, true, false, length, slice_index_or, IsTrue, OnOk};
ghost use Rattle.hq_algebra.specs.declared.op.Op.{Op as Operator};
ghost use Rattle.hq_exec.specs.Slices.{IsSliceOf};
ghost use Rattle.hq_pump.specs.Safe.{AreEarlier};
ghost use Rattle.hq_dispatch.specs.Outside.{outside};
ghost use Rattle.hq_dispatch.specs.Received.{HasGot};
ghost use Rattle.hq_dispatch.specs.Running.{CanFlow, HasRun};

use crate::basis::Basis;
use crate::flow::flow;
use crate::parcels::Parcels;
use crate::receive::receive;
use hq_algebra::Motion;
use hq_detect::{Bench, Host};
use hq_exec::FlowEnd;
use hq_link::Link;
use hq_pump::ExchangeEnd;
use hq_store::Store;
use hq_value::{BUCKETS, Kinds, Row};
use std::alloc::Global;

/// A node's bench, the rows that it received, the newest slice first, and how it ran its last slice and took the rows of its
/// last motion.
pub(crate) struct Task<S, H, L> {
    pub(crate) bench: Bench<S, H, L>,
    pub(crate) incoming: Vec<(u8, Vec<Row>)>,
    pub(crate) end: FlowEnd,
    pub(crate) parcels: Parcels,
    pub(crate) got: Result<(), ExchangeEnd>,
}

impl<S, H, L> Task<S, H, L> {
    /// A node that has received nothing. It takes no memory.
    pub(crate) fn new(alloc: Global, bench: Bench<S, H, L>) -> Task<S, H, L>
        ensures bench { result.bench ≡ bench }
        ensures none { result.incoming.items ≡ [] }
    {
        Task {
            bench,
            incoming: Vec::new(alloc),
            end: FlowEnd::Done,
            parcels: Parcels::new(alloc),
            got: Ok(()),
        }
    }
}

impl<S: Store, H: Host, L: Link> Task<S, H, L> {
    /// Runs a slice, where the node runs it. Else nothing is done.
    pub(crate) fn run(
        &mut self,
        alloc: Global,
        basis: &Basis<S::File, S::Seal>,
        slice: u8,
        node: u8,
        out: &Motion,
        kinds: &Kinds,
        runs: bool,
    )
        requires { CanFlow S.Seal.tells S.File.tells basis.now slice node self.old.incoming.items out.now kinds.now }
        ensures { (root : Operator) → IsSliceOf basis.now.plan slice root
            → HasRun (outside S.faults S.given S.sound H.checks H.faults H.sound L.state) (IsTrue S.Seal.tells × IsTrue S.File.tells)
            basis.now root out.now kinds.now node runs self.old self.new }
    {
        if !runs {
            self.end = FlowEnd::Done;
            return;
        }
        let (end, parcels) = flow(
            alloc,
            &mut self.bench,
            basis,
            slice,
            node,
            self.incoming.as_slice(),
            out,
            kinds,
        );
        self.end = end;
        self.parcels = parcels;
    }

    /// Takes the rows that the senders of a slice have for the node, where it receives some. Else nothing is done.
    pub(crate) fn take(
        &mut self,
        alloc: Global,
        query: u64,
        slice: u8,
        node: u8,
        out: &Motion,
        kinds: &Kinds,
        parcels: &[Parcels],
        sends: &[bool; BUCKETS],
        takes: bool,
    )
        requires some { 0 < length kinds.now }
        requires there { (s : ℕ) → slice_index_or sends.now s false ≡ true → s < length parcels.now }
        requires node { node < 16 }
        requires earlier { AreEarlier query slice (L.state self.old.bench.link).may }
        ensures { HasGot (outside S.faults S.given S.sound H.checks H.faults H.sound L.state)
            query slice kinds.now out.now parcels.now sends.now node takes self.old self.new }
    {
        if !takes {
            self.got = Ok(());
            return;
        }
        match receive(
            alloc,
            &mut self.bench.link,
            query,
            slice as u16,
            node,
            out,
            kinds,
            parcels,
            sends,
        ) {
            Ok(rows) => self.got = keep(&mut self.incoming, slice, rows),
            Err(end) => self.got = Err(end),
        }
    }
}

// Puts the rows of a slice in front of those that were received before.
fn keep(incoming: &mut Vec<(u8, Vec<Row>)>, slice: u8, rows: Vec<Row>) -> Result<(), ExchangeEnd>
    ensures kept { OnOk result (incoming.new.items ≡ (slice, rows) ∷ incoming.old.items) }
    ensures no_memory { (result ≡ Ok tt) ⊎ (result ≡ Err ExchangeEnd.NoMemory) }
{
    match incoming.insert(0, (slice, rows)) {
        Ok(()) => Ok(()),
        Err(_) => Err(ExchangeEnd::NoMemory),
    }
}
