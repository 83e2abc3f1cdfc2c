//! An exchange into lists.
ghost use Rattle.std.specs.Prelude.{◌≡◌, ◌+◌, ◌-◌, ◌*◌, ◌^◌, ◌<◌, ◌≤◌, true, length, map, All, IfOk, OnOk};
ghost use Rattle.hq_value.specs.Causes.{RoseBy};
ghost use Rattle.hq_link.specs.Link.{StaysSound, IsLowered};
ghost use Rattle.hq_pump.specs.Seen.{seen};
ghost use Rattle.hq_pump.specs.Safe.{AreAlone, AreEarlier, Grows, IsOwn, WhereKnown};
ghost use Rattle.hq_pump.specs.Promise.{IsRoughAtMost, IsOkOrNoMemory};
ghost use Rattle.hq_pump.specs.Pumping.{begun, pieces_of};
ghost use Rattle.hq_exchange.specs.Ends.{HasCause, HasExchanged, nothing};

use crate::lists::Lists;
use hq_link::Link;
use hq_pump::{ExchangeEnd, exchange_into};
use hq_value::NoMemory;
use std::alloc::Global;

/// Sends the streams, each from its node, to the node `to` over the link, and gives those that came at its other end.
/// Where the link tells what it carries, these are the streams that were sent, in the same order, whatever the link
/// lost, repeated and reordered. It gives up where the link counted 32 troubles since the last new acknowledgement,
/// or the start.
pub fn exchange<L: Link>(
    alloc: Global,
    link: &mut L,
    query: u64,
    motion: u16,
    to: u8,
    streams: Vec<(u8, Vec<u8>)>,
) -> Result<Vec<(u8, Vec<u8>)>, ExchangeEnd>
    requires to_node { to < 16 }
    requires from_nodes { All (λ stream. stream.0 < 16) streams.items }
    requires few { length streams.items ≤ 16 }
    requires alone { AreAlone (seen streams.items) }
    requires earlier { AreEarlier query motion (L.state link.old).may }
    ensures whole { IfOk result (λ got. WhereKnown (L.state link.new).may
        (seen got.items ≡ seen streams.items)) }
    ensures own { Grows (L.state link.old).may (L.state link.new).may (IsOwn query motion) }
    ensures runs { HasExchanged
        (begun query motion to (seen streams.items) (L.state link.old) nothing)
        (L.state link.new) (seen streams.items) result }
    ensures given { OnOk result (WhereKnown (L.state link.new).may
        (RoseBy (pieces_of (seen streams.items)) (L.state link.old).given (L.state link.new).given)) }
    ensures sound { (L.state link.old).sound ≡ true → StaysSound (L.state link.old) (L.state link.new) }
    ensures few { IsRoughAtMost 15 (L.state link.old) → (L.state link.new).troubles
        ≤ (L.state link.old).troubles + 32 * pieces_of (seen streams.items) + 31 }
    ensures rough { IsLowered (L.state link.old).rough (L.state link.new).rough }
    ensures steady { IsRoughAtMost 0 (L.state link.old)
        → (L.state link.new).troubles ≡ (L.state link.old).troubles }
    ensures complete { IsRoughAtMost 15 (L.state link.old) → (L.state link.new).troubles < 2 ^ 64 - 1
        → IsOkOrNoMemory result }
    ensures cause { HasCause (L.state link.old) (L.state link.new) result }
{
    let Ok(senders) = senders(alloc, &streams) else {
        return Err(ExchangeEnd::NoMemory);
    };
    let mut lists = Lists::new(alloc);
    match exchange_into(alloc, link, query, motion, to, streams, &mut lists) {
        Ok(()) => match lists.into_streams(&senders) {
            Ok(got) => Ok(got),
            Err(NoMemory) => Err(ExchangeEnd::NoMemory),
        },
        Err(end) => Err(end),
    }
}

// The senders of the streams, in their order.
fn senders(alloc: Global, streams: &[(u8, Vec<u8>)]) -> Result<Vec<u8>, NoMemory>
    ensures { IfOk result (λ senders. senders.items ≡ map (λ stream. stream.0) streams.now) }
{
    let mut senders = Vec::with_capacity(alloc, streams.len())?;
    for stream in streams {
        senders.push(stream.0)?;
    }
    Ok(senders)
}
