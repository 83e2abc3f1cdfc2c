//! Exchanges of streams whose nodes go down from the first.
ghost use Rattle.std.specs.Prelude.{◌≡◌, ◌<◌, ◌≤◌, true, IfOk, length};
ghost use Rattle.hq_link.specs.Reading.{gram_at};
ghost use Rattle.hq_pump.specs.Safe.{AreEarlier, IsEarlier};
ghost use Rattle.hq_sim.specs.Acting.{state_of};
ghost use Rattle.hq_wiretests.specs.Streams.{GoDown};

use hq_exchange::exchange;
use hq_link::{Link, read};
use hq_pump::ExchangeEnd;
use hq_sim::SimLink;
use std::alloc::Global;
use std::test::Fail;

/// What an exchange gave.
pub type Given = Result<Vec<(u8, Vec<u8>)>, ExchangeEnd>;

/// The texts as streams, from the first node and those below it, as many as there are nodes.
pub fn streams(alloc: Global, first: u8, texts: &[Vec<u8>]) -> Result<Vec<(u8, Vec<u8>)>, Fail>
    requires { first < 16 }
    ensures { IfOk result (λ streams. GoDown first streams.items) }
{
    let mut streams = Vec::new(alloc);
    let mut from = first;
    for text in texts {
        streams.push((from, text.to_vec(alloc)?))?;
        if from == 0 {
            return Ok(streams);
        }
        from -= 1;
    }
    Ok(streams)
}

/// Runs an exchange of the streams, whose nodes go down from the first, over the link.
pub fn carry<L: Link>(
    alloc: Global,
    link: &mut L,
    query: u64,
    motion: u16,
    to: u8,
    first: u8,
    streams: Vec<(u8, Vec<u8>)>,
) -> Given
    requires to { to < 16 }
    requires first { first < 16 }
    requires down { GoDown first streams.items }
    requires earlier { AreEarlier query motion (L.state link.old).may }
{
    let _first = first;
    exchange(alloc, link, query, motion, to, streams)
}

/// Runs an exchange of the texts over the link.
pub fn run<L: Link>(
    alloc: Global,
    link: &mut L,
    query: u64,
    motion: u16,
    to: u8,
    first: u8,
    texts: &[Vec<u8>],
) -> Result<Given, Fail>
    requires to { to < 16 }
    requires first { first < 16 }
    requires earlier { AreEarlier query motion (L.state link.old).may }
{
    let streams = streams(alloc, first, texts)?;
    Ok(carry(alloc, link, query, motion, to, first, streams))
}

/// Whether these are the streams of the texts.
pub fn are_same(given: &[(u8, Vec<u8>)], first: u8, texts: &[Vec<u8>]) -> bool {
    let count = texts.len().min(first as usize + 1);
    if given.len() != count {
        return false;
    }
    for i in 0..count {
        if given[i].0 as usize + i != first as usize
            || given[i].1.as_slice() != texts[i].as_slice()
        {
            return false;
        }
    }
    true
}

// Whether bytes are no datagram of that query and motion or a later one.
#[tactic(auto, using(crate::proofs::Nodes::earlier_seen, crate::proofs::Nodes::earlier_none))]
fn is_earlier(query: u64, motion: u16, bytes: &[u8]) -> bool
    ensures { result ≡ true → IsEarlier query motion (gram_at bytes.now) }
{
    match read(bytes) {
        Some(d) => d.query < query || (d.query == query && d.motion < motion),
        None => true,
    }
}

// Whether they may lie on a link before an exchange of that query and motion.
fn may_lie(query: u64, motion: u16, bytes: &[u8]) -> bool
    ensures least { result ≡ true → 24 ≤ length bytes.now }
    ensures most { result ≡ true → length bytes.now ≤ 1224 }
    ensures earlier { result ≡ true → IsEarlier query motion (gram_at bytes.now) }
{
    24 <= bytes.len() && bytes.len() <= 1224 && is_earlier(query, motion, bytes)
}

/// Sends bytes over the link, where they may lie on it before an exchange of that query and motion.
pub fn put(link: &mut SimLink, query: u64, motion: u16, bytes: &[u8])
    ensures { AreEarlier query motion (state_of link.old).may → AreEarlier query motion (state_of link.new).may }
{
    if may_lie(query, motion, bytes) {
        let _ = link.send(bytes);
    }
}
