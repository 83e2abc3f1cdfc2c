//! The rows of a motion, taken over a receiver's link.
ghost use Rattle.std.specs.Prelude.{◌≡◌, ◌^◌, ◌<◌, ◌≤◌, ℕ, true, false, All, List, length, slice_index_or, IfOk, OnOk};
ghost use Rattle.std.specs.List.{AllByRecursion};
ghost use Rattle.hq_value.specs.Causes.{RoseBy};
ghost use Rattle.hq_value.specs.declared.value.Value.{Value as Datum};
ghost use Rattle.hq_block.specs.Row.{IsStorable};
ghost use Rattle.hq_pump.specs.Pumping.{pieces_of};
ghost use Rattle.hq_pump.specs.Safe.{AreAlone, AreEarlier, WhereKnown};
ghost use Rattle.hq_pump.specs.Seen.{seen};
ghost use Rattle.hq_dispatch.specs.Received.{AreOf, HasExchanged, HasTaken, joined};

use crate::arrivals::Arrivals;
use crate::parcels::{Parcels, streams_to};
use hq_algebra::Motion;
use hq_link::Link;
use hq_pump::{ExchangeEnd, exchange_into};
use hq_value::{BUCKETS, Kinds, NoMemory, Row};
use std::alloc::Global;

/// Takes the rows of the senders over the link of a receiver, one exchange, joined by ascending sender.
pub(crate) fn receive<L: Link>(
    alloc: Global,
    link: &mut L,
    query: u64,
    motion: u16,
    node: u8,
    out: &Motion,
    kinds: &Kinds,
    parcels: &[Parcels],
    sends: &[bool; BUCKETS],
) -> Result<Vec<Row>, ExchangeEnd>
    requires some { 0 < length kinds.now }
    requires there { (s : ℕ) → slice_index_or sends.now s false ≡ true → s < length parcels.now }
    requires node { node < 16 }
    requires earlier { AreEarlier query motion (L.state link.old).may }
    ensures exchanged { HasExchanged query motion (L.state link.old) (L.state link.new) result }
    ensures taken { IfOk result (λ rows. HasTaken kinds.now out.now parcels.now sends.now node (L.state link.old) (L.state link.new) rows.items) }
{
    let Ok(streams) = streams_to(alloc, out, parcels, sends, node) else {
        return Err(ExchangeEnd::NoMemory);
    };
    take_streams(alloc, link, query, motion, node, kinds, sends, streams)
}

// Takes the streams of the senders over a link, and reads their rows as they come.
fn take_streams<L: Link>(
    alloc: Global,
    link: &mut L,
    query: u64,
    motion: u16,
    node: u8,
    kinds: &Kinds,
    sends: &[bool; BUCKETS],
    streams: Vec<(u8, Vec<u8>)>,
) -> Result<Vec<Row>, ExchangeEnd>
    requires some { 0 < length kinds.now }
    requires node { node < 16 }
    requires from { All (λ stream. stream.0 < 16) streams.items }
    requires few { length streams.items ≤ 16 }
    requires alone { AreAlone (seen streams.items) }
    requires earlier { AreEarlier query motion (L.state link.old).may }
    ensures exchanged { HasExchanged query motion (L.state link.old) (L.state link.new) result }
    ensures storable { IfOk result (λ rows. AllByRecursion (IsStorable kinds.now) rows.items) }
    ensures known { IfOk result (λ rows. WhereKnown (L.state link.new).may
        ((given : ℕ → List (List Datum)) → AreOf kinds.now sends.now given (seen streams.items) → rows.items ≡ joined sends.now given)) }
    ensures given { OnOk result (WhereKnown (L.state link.new).may
        (RoseBy (pieces_of (seen streams.items)) (L.state link.old).given (L.state link.new).given)) }
{
    let Ok(mut arrivals) = Arrivals::new(alloc, kinds) else {
        return Err(ExchangeEnd::NoMemory);
    };
    match exchange_into(alloc, link, query, motion, node, streams, &mut arrivals) {
        Ok(()) => match arrivals.into_rows(kinds, sends) {
            Ok(rows) => Ok(rows),
            Err(NoMemory) => Err(ExchangeEnd::NoMemory),
        },
        Err(end) => Err(end),
    }
}
