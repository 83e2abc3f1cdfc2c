//! Datagrams and their bytes.
ghost use Rattle.std.specs.Prelude.{◌≡◌, ◌↔◌, Some, None, IfOk, IsErrOf};
ghost use Rattle.hq_link.specs.Gram.{Fits, IsGram};
ghost use Rattle.hq_link.specs.Reading.{gram_at};
ghost use Rattle.hq_link.specs.Seen.{seen};

use crate::reading::{Seen, read};
use crate::writing::header;
use crate::{Datagram, Payload};
use hq_value::NoMemory;
use std::alloc::Global;

/// Why bytes gave no datagram.
#[derive(Clone, Copy, Debug, PartialEq, Eq)]
pub enum GramFault {
    NotADatagram,
    NoMemory,
}

/// The bytes of a datagram whose nodes are below 16 and whose payload is 1 to 1,200 bytes for a Data, else none.
pub fn encode_datagram(alloc: Global, d: &Datagram) -> Result<Vec<u8>, NoMemory>
    requires { Fits d.now }
    ensures { IfOk result (λ bytes. IsGram d.now bytes.items) }
{
    let payload = d.payload.as_slice();
    let head = header(d.kind, d.route(), payload.len() as u16, d.seq);
    let mut bytes = Vec::from_slice(alloc, &head)?;
    bytes.extend_from_slice(payload)?;
    Ok(bytes)
}

/// The datagram that all of the bytes are. `NotADatagram` comes exactly where they spell none.
pub fn decode_datagram(alloc: Global, bytes: &[u8]) -> Result<Datagram, GramFault>
    ensures spelled { IfOk result (λ d. IsGram d bytes.now) }
    ensures read { IfOk result (λ d. gram_at bytes.now ≡ Some d) }
    ensures outside { IsErrOf result GramFault.NotADatagram ↔ (gram_at bytes.now ≡ None) }
{
    match read(bytes) {
        Some(seen) => owned(alloc, seen),
        None => Err(GramFault::NotADatagram),
    }
}

// The datagram with a payload of its own.
fn owned(alloc: Global, d: Seen<'_>) -> Result<Datagram, GramFault>
    ensures same { IfOk result (λ own. own ≡ seen d.entry) }
    ensures memory { IsErrOf result GramFault.NotADatagram → ⊥ }
{
    let Ok(payload) = Vec::from_slice(alloc, d.payload) else {
        return Err(GramFault::NoMemory);
    };
    Ok(Datagram {
        kind: d.kind,
        from: d.from,
        to: d.to,
        motion: d.motion,
        query: d.query,
        seq: d.seq,
        payload: Payload::new(payload),
    })
}
