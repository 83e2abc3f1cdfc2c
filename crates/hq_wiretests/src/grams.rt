//! Datagrams in bytes, both ways.
ghost use Rattle.std.specs.Prelude.{◌≡◌, ◌<◌, ◌^◌, true};
ghost use Rattle.hq_link.specs.Gram.{Fits, may_bring};

use hq_cases as cases;
use hq_link::{Datagram, GramFault, Packet, Payload, decode_datagram, encode_datagram};
use hq_value::NoMemory;
use std::alloc::Global;
use std::test::Fail;

const NODES: u8 = 16;

/// What a datagram is, by its word.
pub fn packet(word: &str) -> Packet {
    match word {
        "data" => Packet::Data,
        "eos" => Packet::Eos,
        "ack" => Packet::Ack,
        _ => Packet::Probe,
    }
}

// Whether such a datagram may bring so many bytes.
fn may_bring(kind: Packet, len: usize) -> bool
    ensures { result ≡ may_bring kind len }
{
    match kind {
        Packet::Data => 0 < len && len <= 1200,
        Packet::Eos | Packet::Ack | Packet::Probe => len == 0,
    }
}

// Numbers are in the ranges of their types.
fn are_numbers(motion: u16, query: u64, seq: u64)
    ensures of_motion { motion < 2 ^ 16 }
    ensures of_query { query < 2 ^ 64 }
    ensures of_seq { seq < 2 ^ 64 }
{}

// Whether the fields are in their ranges.
fn fits(d: &Datagram) -> bool
    ensures { result ≡ true → Fits d.now }
{
    if d.from >= NODES {
        return false;
    }
    if d.to >= NODES {
        return false;
    }
    are_numbers(d.motion, d.query, d.seq);
    may_bring(d.kind, d.payload.as_slice().len())
}

// `KIND FROM TO MOTION QUERY NUMBER TEXT`.
fn datagram(alloc: Global, text: &str) -> Result<Datagram, Fail> {
    let (word, rest) = cases::line_of(text).unwrap_or(("", ""));
    let (from, rest) = cases::counted(rest);
    let (to, rest) = cases::counted(rest);
    let (motion, rest) = cases::counted(rest);
    let (query, rest) = cases::counted(rest);
    let (seq, rest) = cases::counted(rest);
    let mut bytes = Vec::new(alloc);
    cases::add(&mut bytes, rest)?;
    Ok(Datagram {
        kind: packet(word),
        from: from.min(255) as u8,
        to: to.min(255) as u8,
        motion: motion.min(65_535) as u16,
        query: query as u64,
        seq: seq as u64,
        payload: Payload::new(bytes),
    })
}

fn encode(rt: HostRuntime, text: &str) -> Result<(), Fail> {
    let d = datagram(rt.alloc(), text)?;
    if !fits(&d) {
        println!(rt; "  out of range")?;
        return Ok(());
    }
    match encode_datagram(rt.alloc(), &d) {
        Ok(bytes) => {
            let bytes = cases::shown(rt.alloc(), &bytes)?;
            println!(rt; "  {bytes}")?;
        }
        Err(NoMemory) => println!(rt; "  no memory")?,
    }
    Ok(())
}

fn decode(rt: HostRuntime, text: &str) -> Result<(), Fail> {
    let mut bytes = Vec::new(rt.alloc());
    cases::add(&mut bytes, text)?;
    match decode_datagram(rt.alloc(), &bytes) {
        Ok(d) => {
            let payload = cases::shown(rt.alloc(), d.payload.as_slice())?;
            println!(rt;
                "  {:?} from {} to {}, motion {}, query {}, number {}: {}",
                d.kind, d.from, d.to, d.motion, d.query, d.seq, payload
            )?;
        }
        Err(GramFault::NotADatagram) => println!(rt; "  no datagram")?,
        Err(GramFault::NoMemory) => println!(rt; "  no memory")?,
    }
    Ok(())
}

/// Shows the cases of `grams.txt`.
pub fn run(rt: HostRuntime) -> Result<(), Fail> {
    let text = cases::text_of(rt, "grams.txt")?;
    for line in text.as_str().lines() {
        match cases::line_of(line) {
            None => {}
            Some(("encode", rest)) => encode(rt, rest)?,
            Some(("decode", rest)) => decode(rt, rest)?,
            Some((word, rest)) => println!(rt; "{word} {rest}")?,
        }
    }
    Ok(())
}
