//! The pump.
ghost use Rattle.std.specs.Prelude.{◌≡◌, ◌+◌, ◌-◌, ◌*◌, ◌^◌, ◌<◌, ◌≤◌, ◌↔◌, length, IfOk, OnOk, IfErr, IfSome, Err, None, true, false, All, map, position};
ghost use Rattle.hq_value.specs.Causes.{RoseBy};
ghost use Rattle.hq_link.specs.Link.{StaysSound, IsLowered};
ghost use Rattle.hq_pump.specs.Seen.{seen};
ghost use Rattle.hq_link.specs.declared.link.LinkFault.{LinkFault};
ghost use Rattle.hq_pump.specs.Exchange.{Run, is_open};
ghost use Rattle.hq_pump.specs.Safe.{AreAlone, AreEarlier, Grows, IsOwn, TakeAll, TakeFronts, WhereKnown};
ghost use Rattle.hq_pump.specs.Promise.{IsRoughAtMost, IsOkOrNoMemory};
ghost use Rattle.hq_pump.specs.Pumping.{at, begun, AreIdle, AreOpen, AreShort, AreShortOr, HasItsCause, HasRun, HasRunOr, new_lane, IsEnd, IsLost, lost_at, all_done, first_open, pieces_of, work_left};

use crate::ExchangeEnd;
use crate::lane::Lane;
use crate::turn::{listen, send_all};
use hq_link::{Link, LinkFault};
use hq_recv::{Receiver, Take};
use hq_send::Sender;
use hq_value::NoMemory;
use std::alloc::Global;

/// The longest datagram.
const MOST: usize = 1224;

/// So many troubles since the last new acknowledgement, and the link counts as lost.
const TROUBLES: u64 = 32;

/// Sends the streams, each from its node, to the node `to` over the link, and gives what came at its other end to
/// `take`. Where the link tells what it carries, that is what was sent, whatever the link lost, repeated and
/// reordered. It gives up where the link counted 32 troubles since the last new acknowledgement, or the start.
pub fn exchange_into<L: Link, T: Take>(
    alloc: Global,
    link: &mut L,
    query: u64,
    motion: u16,
    to: u8,
    streams: Vec<(u8, Vec<u8>)>,
    take: &mut T,
) -> Result<(), ExchangeEnd>
    requires to_node { to < 16 }
    requires from_nodes { All (λ stream. stream.0 < 16) streams.items }
    requires few { length streams.items ≤ 16 }
    requires alone { AreAlone (seen streams.items) }
    requires earlier { AreEarlier query motion (L.state link.old).may }
    ensures fronts { WhereKnown (L.state link.new).may
        (TakeFronts (seen streams.items) (T.taken take.old) (T.taken take.new)) }
    ensures whole { OnOk result (WhereKnown (L.state link.new).may
        (TakeAll (seen streams.items) (T.taken take.old) (T.taken take.new))) }
    ensures own { Grows (L.state link.old).may (L.state link.new).may (IsOwn query motion) }
    ensures cause { HasItsCause (L.state link.old) (L.state link.new) result }
    ensures runs { HasRunOr
        (begun query motion to (seen streams.items) (L.state link.old) (T.taken take.old))
        (L.state link.new) (T.taken take.new) result }
    ensures given { OnOk result (WhereKnown (L.state link.new).may
        (RoseBy (pieces_of (seen streams.items)) (L.state link.old).given (L.state link.new).given)) }
    ensures sound { (L.state link.old).sound ≡ true → StaysSound (L.state link.old) (L.state link.new) }
    ensures steady { IsRoughAtMost 0 (L.state link.old)
        → (L.state link.new).troubles ≡ (L.state link.old).troubles }
    ensures complete { IsRoughAtMost 15 (L.state link.old) → (L.state link.new).troubles < 2 ^ 64 - 1
        → IsOkOrNoMemory result }
    ensures few { IsRoughAtMost 15 (L.state link.old) → (L.state link.new).troubles
        ≤ (L.state link.old).troubles + 32 * pieces_of (seen streams.items) + 31 }
    ensures rough { IsLowered (L.state link.old).rough (L.state link.new).rough }
{
    start(alloc, link, query, motion, to, streams, take)
}

// Makes the ends of the streams, and runs them.
fn start<L: Link, T: Take>(
    alloc: Global,
    link: &mut L,
    query: u64,
    motion: u16,
    to: u8,
    streams: Vec<(u8, Vec<u8>)>,
    take: &mut T,
) -> Result<(), ExchangeEnd>
    requires to_node { to < 16 }
    requires from_nodes { All (λ stream. stream.0 < 16) streams.items }
    requires few { length streams.items ≤ 16 }
    ensures runs { HasRunOr
        (begun query motion to (seen streams.items) (L.state link.old) (T.taken take.old))
        (L.state link.new) (T.taken take.new) result }
    ensures short { AreShortOr (map (new_lane query motion to) (seen streams.items))
        (L.state link.old) (L.state link.new) result }
{
    let Ok(mut lanes) = lanes(alloc, query, motion, to, streams) else {
        return Err(ExchangeEnd::NoMemory);
    };
    let mut into = [0; MOST];
    let mut out = [0; MOST];
    pump(link, &mut lanes, &mut into, &mut out, take)
}

// Two new ends for each stream. The length of what lies in memory is a number of the machine's.
fn lanes(
    alloc: Global,
    query: u64,
    motion: u16,
    to: u8,
    mut streams: Vec<(u8, Vec<u8>)>,
) -> Result<Vec<Lane>, NoMemory>
    requires to { to < 16 }
    requires from { All (λ stream. stream.0 < 16) streams.items }
    ensures made { IfOk result (λ lanes. lanes.items ≡ map (new_lane query motion to) (seen streams.items)) }
    ensures short { IfOk result (λ lanes. AreShort lanes.items) }
{
    let mut lanes = Vec::with_capacity(alloc, streams.len())?;
    'streams: while !streams.is_empty() {
        let (from, bytes) = streams.remove(0);
        let _count = bytes.len();
        let receiver = Receiver::new(alloc, from, to, query, motion)?;
        let sender = Sender::new(from, to, query, motion, bytes);
        lanes.push(Lane { sender, receiver })?;
    }
    Ok(lanes)
}

// Runs both ends of each stream until all are finished.
fn pump<L: Link, T: Take>(
    link: &mut L,
    lanes: &mut Vec<Lane>,
    into: &mut [u8],
    out: &mut [u8],
    take: &mut T,
) -> Result<(), ExchangeEnd>
    requires room_in { 1224 ≤ length into.old }
    requires room_out { 1224 ≤ length out.old }
    requires few { length lanes.old.items ≤ 16 }
    requires open_ones { AreOpen lanes.old.items }
    ensures { HasRun
        (at lanes.old.items (L.state link.old) (L.state link.old).troubles (T.taken take.old) None)
        (L.state link.new) (T.taken take.new) result }
{
    let mut base = link.troubles();
    'turns: loop {
        if all_done(lanes) {
            return Ok(());
        }
        match turn(link, lanes, base, into, out, take) {
            Ok(now) => base = now,
            Err(end) => return Err(end),
        }
    }
}

// Sends what is due, and takes what comes next, where a stream isn't done. The link may be lost after both.
fn turn<L: Link, T: Take>(
    link: &mut L,
    lanes: &mut Vec<Lane>,
    base: u64,
    into: &mut [u8],
    out: &mut [u8],
    take: &mut T,
) -> Result<u64, ExchangeEnd>
    requires room_in { 1224 ≤ length into.old }
    requires room_out { 1224 ≤ length out.old }
    requires few { length lanes.old.items ≤ 16 }
    requires not_done { all_done lanes.old.items ≡ false }
    ensures goes_on { IfOk result (λ now. Run
        (at lanes.old.items (L.state link.old) base (T.taken take.old) None)
        (at lanes.new.items (L.state link.new) now (T.taken take.new) None)) }
    ensures ends { IfErr result (λ end. HasRun
        (at lanes.old.items (L.state link.old) base (T.taken take.old) None)
        (L.state link.new) (T.taken take.new) (Err end)) }
    ensures count { length lanes.new.items ≡ length lanes.old.items }
    ensures not_lost { IfOk result (λ now. (L.state link.new).troubles < lost_at now) }
    ensures less { IfOk result (λ now. work_left lanes.new.items (L.state link.new) now
        < work_left lanes.old.items (L.state link.old) base) }
{
    match send_all(link, lanes, out) {
        Ok(()) => {
            if is_lost(link, base) {
                Err(lost(link, lanes, base))
            } else {
                ask(link, lanes, base, into, out, take)
            }
        }
        Err(fault) => Err(end_of(link, lanes, base, fault)),
    }
}

// Takes what comes next, where nothing is due and a stream isn't done.
fn ask<L: Link, T: Take>(
    link: &mut L,
    lanes: &mut Vec<Lane>,
    base: u64,
    into: &mut [u8],
    out: &mut [u8],
    take: &mut T,
) -> Result<u64, ExchangeEnd>
    requires room_in { 1224 ≤ length into.old }
    requires room_out { 1224 ≤ length out.old }
    requires few { length lanes.old.items ≤ 16 }
    requires idle { AreIdle lanes.old.items (length lanes.old.items) }
    requires not_done { all_done lanes.old.items ≡ false }
    requires not_lost { (L.state link.old).troubles < lost_at base }
    ensures goes_on { IfOk result (λ now. Run
        (at lanes.old.items (L.state link.old) base (T.taken take.old) None)
        (at lanes.new.items (L.state link.new) now (T.taken take.new) None)) }
    ensures ends { IfErr result (λ end. HasRun
        (at lanes.old.items (L.state link.old) base (T.taken take.old) None)
        (L.state link.new) (T.taken take.new) (Err end)) }
    ensures count { length lanes.new.items ≡ length lanes.old.items }
    ensures not_lost { IfOk result (λ now. (L.state link.new).troubles < lost_at now) }
    ensures less { IfOk result (λ now. work_left lanes.new.items (L.state link.new) now
        < work_left lanes.old.items (L.state link.old) base) }
{
    match listen(link, lanes, base, into, out, take) {
        Ok(now) => {
            if is_lost(link, now) {
                Err(lost(link, lanes, now))
            } else {
                Ok(now)
            }
        }
        Err(fault) => Err(end_of(link, lanes, base, fault)),
    }
}

fn all_done(lanes: &[Lane]) -> bool
    ensures { result ≡ all_done lanes.now }
{
    lanes.iter().all(|lane| lane.is_done())
}

// Whether so many troubles came since `base` that the link counts as lost.
fn is_lost<L: Link>(link: &L, base: u64) -> bool
    ensures lost { (result ≡ true) ↔ IsLost base (L.state link.now).troubles }
    ensures not_lost { result ≡ false → (L.state link.now).troubles < lost_at base }
{
    base.saturating_add(TROUBLES) <= link.troubles()
}

// The lowest number not acknowledged of the first stream that isn't done.
fn first_open(lanes: &[Lane]) -> u64
    ensures { result ≡ first_open lanes.now }
{
    match open_place(lanes) {
        Some(place) => {
            let lane = &lanes[place];
            lane.sender.lowest()
        }
        None => 0,
    }
}

// The place of the first stream that isn't done.
fn open_place(lanes: &[Lane]) -> Option<usize>
    ensures place { result ≡ position is_open lanes.now }
    ensures below { IfSome result (λ place. place < length lanes.now) }
{
    lanes.iter().position(|lane| lane.is_open())
}

// How the exchange ends by a fault.
fn end_of<L: Link>(link: &L, lanes: &[Lane], base: u64, fault: LinkFault) -> ExchangeEnd
    ensures { IsEnd base (first_open lanes.now) (L.state link.now).troubles fault result }
{
    if is_lost(link, base) {
        return ExchangeEnd::LinkLost {
            seq: first_open(lanes),
            troubles: link.troubles().saturating_sub(base),
        };
    }
    match fault {
        LinkFault::Failed => ExchangeEnd::LinkFailed,
        LinkFault::NoMemory => ExchangeEnd::NoMemory,
    }
}

// How it ends where the link counts as lost.
fn lost<L: Link>(link: &L, lanes: &[Lane], base: u64) -> ExchangeEnd
    requires { IsLost base (L.state link.now).troubles }
    ensures { (fault : LinkFault) → IsEnd base (first_open lanes.now) (L.state link.now).troubles fault result }
{
    ExchangeEnd::LinkLost {
        seq: first_open(lanes),
        troubles: link.troubles().saturating_sub(base),
    }
}
