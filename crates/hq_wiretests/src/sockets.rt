//! A link over two real sockets.

use crate::streams::{are_same, run as run_streams};
use hq_link::{Link, UdpPair};
use std::alloc::Global;
use std::test::Fail;

/// The longest datagram.
const MOST: usize = 1224;

// Three streams: one of many pieces, one of one, and one without bytes.
fn texts(alloc: Global) -> Result<Vec<Vec<u8>>, Fail> {
    let mut many = Vec::new(alloc);
    for i in 0..100_000usize {
        many.push((i % 251) as u8)?;
    }
    let mut one = Vec::new(alloc);
    one.push(b'x')?;
    let mut texts = Vec::new(alloc);
    texts.push(many)?;
    texts.push(one)?;
    texts.push(Vec::new(alloc))?;
    Ok(texts)
}

// Shows whether the streams come.
fn exchange(rt: HostRuntime, mut pair: UdpPair) -> Result<(), Fail> {
    let texts = texts(rt.alloc())?;
    let given = run_streams(rt.alloc(), &mut pair, 1, 0, 2, 15, &texts)?;
    let same = match &given {
        Ok(streams) => are_same(streams, 15, &texts),
        Err(_) => false,
    };
    println!(rt; "  the same streams {same}")?;
    Ok(())
}

// Shows what a call gives where so many arrivals are no datagrams.
fn strange(rt: HostRuntime, mut pair: UdpPair, count: usize) -> Result<(), Fail> {
    for _ in 0..count {
        let _ = pair.send(&[0xff; 24]);
    }
    let mut into = [0; MOST];
    let got = pair.next(&mut into);
    println!(rt; "  {count}: {got:?}, {} troubles", pair.troubles())?;
    Ok(())
}

/// Shows what comes over two sockets of this machine.
pub fn run(rt: HostRuntime) -> Result<(), Fail> {
    println!(rt; "case streams over two sockets")?;
    if let Ok(pair) = UdpPair::open(&rt) {
        exchange(rt, pair)?;
    }
    println!(rt;
        "case arrivals that are no datagrams: each is a trouble, and so is the silence behind fewer than 64"
    )?;
    for count in [0, 1, 63, 64] {
        if let Ok(pair) = UdpPair::open(&rt) {
            strange(rt, pair, count)?;
        }
    }
    Ok(())
}
