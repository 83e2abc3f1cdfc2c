//! One turn of an exchange.
ghost use Rattle.std.specs.Prelude.{◌≡◌, ◌+◌, ◌*◌, ◌<◌, ◌≤◌, ℕ, List, length, map, position, IfOk, OnOk, Ok, None, Some};
ghost use Rattle.hq_link.specs.Link.{LinkState, other_count};
ghost use Rattle.hq_pump.specs.Exchange.{Exchange, Run, IsReady, asked_again, fault_of, is_from};
ghost use Rattle.hq_pump.specs.Pumping.{at, all_done, AreIdle, Comes, StandsAt, moved, base_of, lost_at, place_of, stream_left, link_left, work_left};

use crate::hear::{ack_in, receive};
use crate::lane::Lane;
use crate::send::{send_due, send_probe};
use hq_link::{Got, Link, LinkFault, read};
use hq_recv::Take;

/// Sends all that is due.
pub(crate) fn send_all<L: Link>(
    link: &mut L,
    lanes: &mut Vec<Lane>,
    out: &mut [u8],
) -> Result<(), LinkFault>
    requires room { 1224 ≤ length out.old }
    ensures runs { (base : ℕ) (taken : ℕ → List ℕ) → Run
        (at lanes.old.items (L.state link.old) base taken None)
        (at lanes.new.items (L.state link.new) base taken (fault_of result)) }
    ensures idle { OnOk result (AreIdle lanes.new.items (length lanes.new.items)) }
    ensures done { all_done lanes.new.items ≡ all_done lanes.old.items }
    ensures count { length lanes.new.items ≡ length lanes.old.items }
    ensures less { OnOk result ((base : ℕ) → work_left lanes.new.items (L.state link.new) base
        ≤ work_left lanes.old.items (L.state link.old) base) }
{
    for i in 0..lanes.len() {
        let lane = &mut lanes[i];
        match send_due(link, lane, out) {
            Ok(()) => (),
            Err(fault) => return Err(fault),
        }
    }
    Ok(())
}

// The lowest number of each stream that was sent is due again.
fn ask_again(lanes: &mut Vec<Lane>)
    ensures count { length lanes.new.items ≡ length lanes.old.items }
    ensures asked { lanes.new.items ≡ map asked_again lanes.old.items }
{
    for i in 0..lanes.len() {
        let lane = &mut lanes[i];
        lane.sender.on_quiet();
    }
}

// Sends a stream's lowest number again, and then a question, where it isn't sent whole.
fn send_again<L: Link>(link: &mut L, lane: &mut Lane, out: &mut [u8]) -> Result<(), LinkFault>
    requires room { 1224 ≤ length out.old }
    ensures runs { (s : Exchange) (i : ℕ) → StandsAt s i lane.old (L.state link.old)
        → Run s (moved s i lane.new (L.state link.new) (fault_of result)) }
    ensures less { OnOk result ((base : ℕ) → stream_left lane.new.sender + link_left (L.state link.new) base
        ≤ stream_left lane.old.sender + link_left (L.state link.old) base + 2) }
{
    if lane.is_sent() {
        return Ok(());
    }
    match send_due(link, lane, out) {
        Ok(()) => send_probe(link, lane, out),
        Err(fault) => Err(fault),
    }
}

// After a silence each stream's lowest number is sent again, and then a question.
fn rest<L: Link>(link: &mut L, lanes: &mut Vec<Lane>, out: &mut [u8]) -> Result<(), LinkFault>
    requires room { 1224 ≤ length out.old }
    ensures runs { (base : ℕ) (taken : ℕ → List ℕ) → Run
        (at (map asked_again lanes.old.items) (L.state link.old) base taken None)
        (at lanes.new.items (L.state link.new) base taken (fault_of result)) }
    ensures count { length lanes.new.items ≡ length lanes.old.items }
    ensures less { OnOk result ((base : ℕ) → work_left lanes.new.items (L.state link.new) base
        ≤ work_left lanes.old.items (L.state link.old) base + 8 * length lanes.old.items) }
{
    ask_again(lanes);
    for i in 0..lanes.len() {
        let lane = &mut lanes[i];
        match send_again(link, lane, out) {
            Ok(()) => (),
            Err(fault) => return Err(fault),
        }
    }
    Ok(())
}

// The place of the stream whose datagram it is.
fn place_of(lanes: &[Lane], bytes: &[u8]) -> Option<usize>
    ensures { result ≡ place_of lanes.now bytes.now }
{
    match read(bytes) {
        Some(d) => place_from(lanes, d.from),
        None => None,
    }
}

// The place of the stream from that node.
fn place_from(lanes: &[Lane], from: u8) -> Option<usize>
    ensures { result ≡ position (is_from from) lanes.now }
{
    lanes.iter().position(|lane| lane.is_from(from))
}

// Hands what came to the stream whose it is. The count of troubles begins anew with a new acknowledgement.
fn hear<L: Link, T: Take>(
    link: &mut L,
    lanes: &mut Vec<Lane>,
    base: u64,
    bytes: &[u8],
    out: &mut [u8],
    take: &mut T,
) -> Result<u64, LinkFault>
    requires room { 1224 ≤ length out.old }
    ensures runs { (s : Exchange) (count : ℕ) (into : List ℕ)
        → Comes s lanes.old.items base count into (L.state link.old) bytes.now (T.taken take.old)
        → Run s (at lanes.new.items (L.state link.new) (base_of base result) (T.taken take.new) (fault_of result)) }
    ensures count { length lanes.new.items ≡ length lanes.old.items }
    ensures less { IfOk result (λ b. work_left lanes.new.items (L.state link.new) b
        ≤ work_left lanes.old.items (L.state link.old) base + other_count bytes.now) }
{
    let Some(place) = place_of(lanes, bytes) else {
        return Ok(base);
    };
    let now = link.troubles();
    let lane = &mut lanes[place];
    match ack_in(lane.sender.route(), bytes) {
        Some(n) => {
            if lane.sender.on_ack(n) {
                Ok(now)
            } else {
                Ok(base)
            }
        }
        None => match receive(link, lane, bytes, out, take) {
            Ok(()) => Ok(base),
            Err(fault) => Err(fault),
        },
    }
}

/// Takes what comes next. Answers the count of troubles at the last new acknowledgement.
pub(crate) fn listen<L: Link, T: Take>(
    link: &mut L,
    lanes: &mut Vec<Lane>,
    base: u64,
    into: &mut [u8],
    out: &mut [u8],
    take: &mut T,
) -> Result<u64, LinkFault>
    requires room_in { 1224 ≤ length into.old }
    requires room_out { 1224 ≤ length out.old }
    ensures runs { IsReady (at lanes.old.items (L.state link.old) base (T.taken take.old) None)
        → Run (at lanes.old.items (L.state link.old) base (T.taken take.old) None)
        (at lanes.new.items (L.state link.new) (base_of base result) (T.taken take.new) (fault_of result)) }
    ensures count { length lanes.new.items ≡ length lanes.old.items }
    ensures less { length lanes.old.items ≤ 16 → (L.state link.old).troubles < lost_at base
        → IfOk result (λ b. work_left lanes.new.items (L.state link.new) b
        < work_left lanes.old.items (L.state link.old) base) }
{
    match link.next(into) {
        Ok(Got::Quiet) => match rest(link, lanes, out) {
            Ok(()) => Ok(base),
            Err(fault) => Err(fault),
        },
        Ok(Got::Bytes(len)) => hear(link, lanes, base, &into[..len], out, take),
        Err(_) => Err(LinkFault::Failed),
    }
}
