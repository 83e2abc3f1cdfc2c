//! Datagrams written into a buffer, with no memory.
ghost use Rattle.std.specs.Prelude.{◌≡◌, ◌+◌, ◌<◌, ◌≤◌, ◌++◌, ◌∷◌, [], true, length, take};
ghost use Rattle.std.specs.Int.{to_be_bytes, w16, w64};
ghost use Rattle.hq_link.specs.Gram.{code, gram_bytes, head_bytes};
ghost use Rattle.hq_link.specs.Streams.{gram};

use crate::{Packet, Route};

/// How many bytes stand before the payload.
const HEAD: usize = 24;

/// Writes the datagram of this kind, stream and number to the front of `into`, which holds 1,224 bytes, and says how
/// many bytes it takes. The payload is copied once.
pub fn write(kind: Packet, route: Route, seq: u64, payload: &[u8], into: &mut [u8]) -> usize
    requires short { length payload.now ≤ 1200 }
    requires room { 1224 ≤ length into.old }
    ensures count { result ≡ 24 + length payload.now }
    ensures written { take result into.new ≡ gram_bytes (gram kind route seq payload.now) }
{
    let head = header(kind, route, payload.len() as u16, seq);
    put(&head, payload, into)
}

fn put(head: &[u8; 24], payload: &[u8], into: &mut [u8]) -> usize
    requires short { length payload.now ≤ 1200 }
    requires room { 1224 ≤ length into.old }
    ensures count { result ≡ 24 + length payload.now }
    ensures written { take result into.new ≡ head.now ++ payload.now }
{
    let len = HEAD + payload.len();
    let (front, rest) = into.split_at_mut(HEAD);
    front.copy_from_slice(head);
    let (body, _) = rest.split_at_mut(payload.len());
    body.copy_from_slice(payload);
    len
}

fn code(kind: Packet) -> u8
    ensures { result ≡ code kind }
{
    match kind {
        Packet::Data => 1,
        Packet::Eos => 2,
        Packet::Ack => 3,
        Packet::Probe => 5,
    }
}

/// The 24 bytes before a payload of `size` bytes.
pub(crate) fn header(kind: Packet, route: Route, size: u16, seq: u64) -> [u8; 24]
    ensures { result ≡ head_bytes kind route size seq }
{
    let code = code(kind);
    let [m0, m1] = route.motion.to_be_bytes();
    let [z0, z1] = size.to_be_bytes();
    let [q0, q1, q2, q3, q4, q5, q6, q7] = route.query.to_be_bytes();
    let [s0, s1, s2, s3, s4, s5, s6, s7] = seq.to_be_bytes();
    [
        code, 1, route.from, route.to, m0, m1, z0, z1, q0, q1, q2, q3, q4, q5, q6, q7, s0, s1, s2,
        s3, s4, s5, s6, s7,
    ]
}
