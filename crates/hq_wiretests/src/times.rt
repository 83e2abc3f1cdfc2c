//! The times of exchanges, and of plain datagrams between two sockets.

use crate::streams::{carry as carry_streams, streams};
use hq_link::UdpPair;
use hq_sim::SimLink;
use std::alloc::Global;
use std::io;
use std::net::{Net, UdpSocket};
use std::test::Fail;
use std::time::{Clock, Duration, Instant};

/// How many bytes a Data brings at most, and how long it is then.
const PIECE: usize = 1200;

/// The longest datagram, and one without bytes.
const MOST: usize = 1224;

const LEAST: usize = 24;

/// So many plain datagrams are on their way at once.
const AT_ONCE: usize = 16;

/// How bytes are carried.
#[derive(Clone, Copy)]
enum Way {
    /// By an exchange over a link in memory.
    Memory,
    /// By an exchange over two sockets.
    Sockets,
    /// As the bytes of plain datagrams between two sockets.
    Plain,
    /// As those, each answered by a datagram without bytes.
    Answered,
}

/// So many bytes that are carried.
#[derive(Clone, Copy)]
pub struct Times {
    way: Way,
    count: usize,
}

impl Times {
    /// What the words ask for: a way, and how many megabytes, at most 100.
    pub fn asked(words: &[String]) -> Option<Times> {
        let [way, count] = words else {
            return None;
        };
        let way = match way.as_str() {
            "memory" => Way::Memory,
            "sockets" => Way::Sockets,
            "plain" => Way::Plain,
            "answered" => Way::Answered,
            _ => return None,
        };
        let count: u32 = count.parse().ok()?;
        Some(Times {
            way,
            count: count.min(100) as usize * 1_000_000,
        })
    }

    /// How many bytes they are.
    pub fn bytes(&self) -> usize {
        self.count
    }

    /// The time that they take, or None where they did not come.
    pub fn run<R: Net + Clock>(&self, rt: &R, alloc: Global) -> Result<Option<Duration>, Fail> {
        match self.way {
            Way::Memory => time_memory(rt, alloc, self.count),
            Way::Sockets => time_sockets(rt, alloc, self.count),
            Way::Plain => time_plain(rt, self.count, false),
            Way::Answered => time_plain(rt, self.count, true),
        }
    }
}

// One text of so many bytes.
fn texts(alloc: Global, count: usize) -> Result<Vec<Vec<u8>>, Fail> {
    let mut bytes = Vec::with_capacity(alloc, count)?;
    for i in 0..count {
        bytes.push((i % 251) as u8)?;
    }
    let mut texts = Vec::new(alloc);
    texts.push(bytes)?;
    Ok(texts)
}

fn time_memory<R: Clock>(rt: &R, alloc: Global, count: usize) -> Result<Option<Duration>, Fail> {
    let texts = texts(alloc, count)?;
    let streams = streams(alloc, 0, &texts)?;
    let mut link = SimLink::scripted(alloc, Vec::new(alloc));
    let start = Instant::now(rt)?;
    let given = carry_streams(alloc, &mut link, 1, 0, 2, 0, streams);
    let took = start.elapsed(rt)?;
    match given {
        Ok(_) => Ok(Some(took)),
        Err(_) => Ok(None),
    }
}

fn time_sockets<R: Net + Clock>(
    rt: &R,
    alloc: Global,
    count: usize,
) -> Result<Option<Duration>, Fail> {
    let texts = texts(alloc, count)?;
    let streams = streams(alloc, 0, &texts)?;
    let Ok(mut pair) = UdpPair::open(rt) else {
        return Ok(None);
    };
    let start = Instant::now(rt)?;
    let given = carry_streams(alloc, &mut pair, 1, 0, 2, 0, streams);
    let took = start.elapsed(rt)?;
    match given {
        Ok(_) => Ok(Some(took)),
        Err(_) => Ok(None),
    }
}

// Two sockets of this machine, the one sending to the other.
fn sockets<R: Net>(rt: &R) -> io::Result<(UdpSocket, UdpSocket)> {
    let from = UdpSocket::bind(rt, "127.0.0.1:0")?;
    let to = UdpSocket::bind(rt, "127.0.0.1:0")?;
    from.connect(to.local_addr()?)?;
    to.connect(from.local_addr()?)?;
    to.set_read_timeout(Some(Duration::from_millis(50)))?;
    Ok((from, to))
}

// So many datagrams one way, and then as many are taken. Where they are answered, so many answers come behind them.
fn carry(from: &UdpSocket, to: &UdpSocket, into: &mut [u8], answered: bool) -> io::Result<()> {
    let bytes = [7; MOST];
    for _ in 0..AT_ONCE {
        from.send(&bytes)?;
    }
    for _ in 0..AT_ONCE {
        to.recv(into)?;
        if answered {
            from.send(&bytes[..LEAST])?;
        }
    }
    if answered {
        take(to, into)?;
    }
    Ok(())
}

fn take(to: &UdpSocket, into: &mut [u8]) -> io::Result<()> {
    for _ in 0..AT_ONCE {
        to.recv(into)?;
    }
    Ok(())
}

fn time_plain<R: Net + Clock>(
    rt: &R,
    count: usize,
    answered: bool,
) -> Result<Option<Duration>, Fail> {
    let (from, to) = sockets(rt)?;
    let mut into = [0; MOST];
    let start = Instant::now(rt)?;
    for _ in 0..count / (PIECE * AT_ONCE) {
        carry(&from, &to, &mut into, answered)?;
    }
    let took = start.elapsed(rt)?;
    Ok(Some(took))
}
