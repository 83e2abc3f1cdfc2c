//! What comes over a link.
ghost use Rattle.std.specs.Prelude.{[], ◌≡◌, ◌+◌, ◌≤◌, ◌||◌, ℕ, List, length, OnOk, Ok, None, Some, true, false, if◌then◌else◌};
ghost use Rattle.hq_link.specs.Link.{LinkState, other_count};
ghost use Rattle.hq_link.specs.Streams.{ack_in, is_probe_of, piece_in};
ghost use Rattle.hq_recv.specs.Taking.{took};
ghost use Rattle.hq_pump.specs.Exchange.{Exchange, Run, fault_of, owes, answers};
ghost use Rattle.hq_pump.specs.Pumping.{Arrives, StandsOwing, heard, link_left};

use crate::lane::Lane;
use hq_link::{Link, LinkFault, Packet, Route, read, write};
use hq_recv::{Take, Took};
use hq_value::NoMemory;

/// The number that the bytes bring to the stream's sender.
pub(crate) fn ack_in(route: Route, bytes: &[u8]) -> Option<u64>
    ensures { result ≡ ack_in route bytes.now }
{
    let d = read(bytes)?;
    if !route.has(&d) {
        return None;
    }
    match d.kind {
        Packet::Ack => Some(d.seq),
        Packet::Data | Packet::Eos | Packet::Probe => None,
    }
}

/// Whether the bytes ask the stream's receiver which number it wants.
fn is_probe_of(route: Route, bytes: &[u8]) -> bool
    ensures { result ≡ is_probe_of route bytes.now }
{
    match read(bytes) {
        Some(d) => route.has(&d) && matches!(d.kind, Packet::Probe),
        None => false,
    }
}

// Whether an answer is owed.
fn owes(took: Took, route: Route, bytes: &[u8]) -> bool
    ensures { result ≡ (answers took || is_probe_of route bytes.now) }
{
    match took {
        Took::New | Took::Old | Took::Ahead => true,
        Took::Foreign => is_probe_of(route, bytes),
    }
}

/// Hands what came to the receiver, hands over what it took, and answers where it owes that.
pub(crate) fn receive<L: Link, T: Take>(
    link: &mut L,
    lane: &mut Lane,
    bytes: &[u8],
    out: &mut [u8],
    take: &mut T,
) -> Result<(), LinkFault>
    requires room { 1224 ≤ length out.old }
    ensures runs { (s : Exchange) (i count : ℕ) (into : List ℕ)
        → Arrives s i lane.old count into (L.state link.old) bytes.now (T.taken take.old)
        → ack_in lane.old.sender.route bytes.now ≡ None
        → Run s (heard s i lane.new (L.state link.new) (T.taken take.new) (fault_of result)) }
    ensures sender { lane.new.sender ≡ lane.old.sender }
    ensures less { OnOk result ((base : ℕ) → link_left (L.state link.new) base
        ≤ link_left (L.state link.old) base + other_count bytes.now) }
{
    match lane.receiver.accept(bytes) {
        Ok(took) => {
            let owed = owes(took, lane.receiver.route(), bytes);
            settle(link, lane, owed, out, take)
        }
        Err(NoMemory) => Err(LinkFault::NoMemory),
    }
}

// Hands over what the receiver took, and answers where it owes that.
fn settle<L: Link, T: Take>(
    link: &mut L,
    lane: &mut Lane,
    owes: bool,
    out: &mut [u8],
    take: &mut T,
) -> Result<(), LinkFault>
    requires room { 1224 ≤ length out.old }
    ensures runs { (s : Exchange) (i : ℕ)
        → StandsOwing s i lane.old (L.state link.old) (T.taken take.old) owes
        → Run s (heard s i lane.new (L.state link.new) (T.taken take.new) (fault_of result)) }
    ensures sender { lane.new.sender ≡ lane.old.sender }
    ensures quiet { owes ≡ false → link.new ≡ link.old }
    ensures less { OnOk result ((base : ℕ) → link_left (L.state link.new) base
        ≤ link_left (L.state link.old) base + 1) }
{
    match lane.receiver.drain(take) {
        Ok(()) => answer(link, lane, owes, out),
        Err(NoMemory) => Err(LinkFault::NoMemory),
    }
}

// Answers where that is owed.
fn answer<L: Link>(link: &mut L, lane: &Lane, owes: bool, out: &mut [u8]) -> Result<(), LinkFault>
    requires room { 1224 ≤ length out.old }
    ensures runs { (s : Exchange) (i : ℕ) (taken : ℕ → List ℕ)
        → StandsOwing s i lane.now (L.state link.old) taken owes
        → lane.now.receiver.state.got ≡ []
        → Run s (heard s i lane.now (L.state link.new) taken (fault_of result)) }
    ensures quiet { owes ≡ false → link.new ≡ link.old }
    ensures less { OnOk result ((base : ℕ) → link_left (L.state link.new) base
        ≤ link_left (L.state link.old) base + 1) }
{
    if owes {
        send_ack(link, lane, out)
    } else {
        Ok(())
    }
}

// Says which number the receiver wants.
fn send_ack<L: Link>(link: &mut L, lane: &Lane, out: &mut [u8]) -> Result<(), LinkFault>
    requires room { 1224 ≤ length out.old }
    ensures runs { (s : Exchange) (i : ℕ) (taken : ℕ → List ℕ)
        → StandsOwing s i lane.now (L.state link.old) taken true
        → lane.now.receiver.state.got ≡ []
        → Run s (heard s i lane.now (L.state link.new) taken (fault_of result)) }
    ensures less { OnOk result ((base : ℕ) → link_left (L.state link.new) base
        ≤ link_left (L.state link.old) base + 1) }
{
    let len = write(
        Packet::Ack,
        lane.receiver.route(),
        lane.receiver.on_probe(),
        &[],
        out,
    );
    link.send(&out[..len])
}
