//! What is sent over a link.
ghost use Rattle.std.specs.Prelude.{◌≡◌, ◌+◌, ◌<◌, ◌≤◌, ℕ, length, OnOk, true, false, Ok, None};
ghost use Rattle.hq_send.specs.Sending.{due_now};
ghost use Rattle.hq_pump.specs.Exchange.{Exchange, Run, fault_of, is_done};
ghost use Rattle.hq_pump.specs.Pumping.{StandsAt, moved, stream_left, link_left};

use crate::lane::Lane;
use hq_link::{Link, LinkFault, Packet, write};

/// Sends the number that is due next, where one is.
pub(crate) fn send_one<L: Link>(
    link: &mut L,
    lane: &mut Lane,
    out: &mut [u8],
) -> Result<bool, LinkFault>
    requires room { 1224 ≤ length out.old }
    ensures runs { (s : Exchange) (i : ℕ) → StandsAt s i lane.old (L.state link.old)
        → Run s (moved s i lane.new (L.state link.new) (fault_of result)) }
    ensures done { is_done lane.new ≡ is_done lane.old }
    ensures none { result ≡ Ok false → due_now lane.new.sender ≡ None }
    ensures fewer { result ≡ Ok true → stream_left lane.new.sender < stream_left lane.old.sender }
    ensures less { OnOk result ((base : ℕ) → stream_left lane.new.sender + link_left (L.state link.new) base
        ≤ stream_left lane.old.sender + link_left (L.state link.old) base) }
{
    let Some(n) = lane.sender.due() else {
        return Ok(false);
    };
    let len = lane.sender.datagram(n, out);
    match link.send(&out[..len]) {
        Ok(()) => Ok(true),
        Err(fault) => Err(fault),
    }
}

/// Sends what is due.
pub(crate) fn send_due<L: Link>(
    link: &mut L,
    lane: &mut Lane,
    out: &mut [u8],
) -> Result<(), LinkFault>
    requires room { 1224 ≤ length out.old }
    ensures runs { (s : Exchange) (i : ℕ) → StandsAt s i lane.old (L.state link.old)
        → Run s (moved s i lane.new (L.state link.new) (fault_of result)) }
    ensures done { is_done lane.new ≡ is_done lane.old }
    ensures none { OnOk result (due_now lane.new.sender ≡ None) }
    ensures less { OnOk result ((base : ℕ) → stream_left lane.new.sender + link_left (L.state link.new) base
        ≤ stream_left lane.old.sender + link_left (L.state link.old) base) }
{
    'due: loop {
        match send_one(link, lane, out) {
            Ok(true) => (),
            Ok(false) => return Ok(()),
            Err(fault) => return Err(fault),
        }
    }
}

/// Asks the receiver which number it wants.
pub(crate) fn send_probe<L: Link>(
    link: &mut L,
    lane: &Lane,
    out: &mut [u8],
) -> Result<(), LinkFault>
    requires room { 1224 ≤ length out.old }
    ensures runs { (s : Exchange) (i : ℕ) → StandsAt s i lane.now (L.state link.old)
        → Run s (moved s i lane.now (L.state link.new) (fault_of result)) }
    ensures less { OnOk result ((base : ℕ) → link_left (L.state link.new) base
        ≤ link_left (L.state link.old) base + 2) }
{
    let len = write(
        Packet::Probe,
        lane.sender.route(),
        lane.sender.lowest(),
        &[],
        out,
    );
    link.send(&out[..len])
}
