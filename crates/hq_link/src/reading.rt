//! Datagrams read, with no memory.
ghost use Rattle.std.specs.Prelude.{◌≡◌, ◌≤◌, true, length, IfSome};
ghost use Rattle.std.specs.Int.{w16, w64};
ghost use Rattle.hq_link.specs.declared.datagram.Datagram.{Datagram};
ghost use Rattle.hq_link.specs.Reading.{Gives, number_at, packet_of, fields_at, gram_at};
ghost use Rattle.hq_link.specs.Gram.{IsGram, may_bring};
ghost use Rattle.hq_link.specs.Seen.{seen};

use crate::Packet;

const NODES: u8 = 16;

/// A datagram whose payload still lies where it was read.
#[derive(Clone, Copy)]
pub struct Seen<'a> {
    pub kind: Packet,
    pub from: u8,
    pub to: u8,
    pub motion: u16,
    pub query: u64,
    pub seq: u64,
    pub payload: &'a [u8],
}

/// The datagram that the bytes are, all of them. None exactly where they spell none.
pub fn read(bytes: &[u8]) -> Option<Seen<'_>>
    ensures gives { Gives seen result (gram_at bytes.now) }
    ensures spelled { IfSome result (λ d. IsGram (seen d) bytes.now) }
    ensures brings { IfSome result (λ d. may_bring d.kind (length d.payload.now) ≡ true) }
    ensures short { IfSome result (λ d. length d.payload.now ≤ 1200) }
{
    gram_at(bytes)
}

#[tactic(auto, unfolding(crate::specs::Reading::gram_at, crate::specs::Reading::after_kind))]
fn gram_at(bytes: &[u8]) -> Option<Seen<'_>>
    ensures gives { Gives seen result (gram_at bytes.now) }
    ensures brings { IfSome result (λ d. may_bring d.kind (length d.payload.now) ≡ true) }
    ensures short { IfSome result (λ d. length d.payload.now ≤ 1200) }
{
    let [kind, version, from, to, rest @ ..] = bytes else {
        return None;
    };
    let kind = packet_of(*kind)?;
    if *version == 1 && *from < NODES && *to < NODES {
        fields_at(kind, *from, *to, rest)
    } else {
        None
    }
}

#[tactic(auto, unfolding(crate::specs::Reading::packet_of))]
fn packet_of(code: u8) -> Option<Packet>
    ensures { Gives (λ x. x) result (packet_of code) }
{
    match code {
        1 => Some(Packet::Data),
        2 => Some(Packet::Eos),
        3 => Some(Packet::Ack),
        5 => Some(Packet::Probe),
        _ => None,
    }
}

#[tactic(auto, unfolding(crate::specs::Reading::fields_at))]
fn fields_at(kind: Packet, from: u8, to: u8, bytes: &[u8]) -> Option<Seen<'_>>
    ensures gives { Gives seen result (fields_at kind from to bytes.now) }
    ensures brings { IfSome result (λ d. may_bring d.kind (length d.payload.now) ≡ true) }
    ensures short { IfSome result (λ d. length d.payload.now ≤ 1200) }
{
    let (motion, bytes) = u16_at(bytes)?;
    let (size, bytes) = u16_at(bytes)?;
    let (query, bytes) = u64_at(bytes)?;
    let (seq, payload) = u64_at(bytes)?;
    if size as usize == payload.len() && may_bring(kind, size) {
        Some(Seen {
            kind,
            from,
            to,
            motion,
            query,
            seq,
            payload,
        })
    } else {
        None
    }
}

fn may_bring(kind: Packet, size: u16) -> bool
    ensures value { result ≡ may_bring kind size }
    ensures short { result ≡ true → size ≤ 1200 }
{
    match kind {
        Packet::Data => 0 < size && size <= 1200,
        Packet::Eos | Packet::Ack | Packet::Probe => size == 0,
    }
}

fn u16_at(bytes: &[u8]) -> Option<(u16, &[u8])>
    ensures { Gives (λ x. (x.0, x.1.now)) result (number_at w16 bytes.now) }
{
    if bytes.len() < 2 {
        return None;
    }
    let (front, rest) = bytes.split_at(2);
    Some((u16::from_be_bytes([front[0], front[1]]), rest))
}

fn u64_at(bytes: &[u8]) -> Option<(u64, &[u8])>
    ensures { Gives (λ x. (x.0, x.1.now)) result (number_at w64 bytes.now) }
{
    if bytes.len() < 8 {
        return None;
    }
    let (front, rest) = bytes.split_at(8);
    let number = u64::from_be_bytes([
        front[0], front[1], front[2], front[3], front[4], front[5], front[6], front[7],
    ]);
    Some((number, rest))
}
