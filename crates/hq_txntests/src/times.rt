//! The times of writes, of what they are made of, and of a lane cut into parts.
ghost use Rattle.std.specs.Prelude.{◌≡◌, ◌<◌, ◌≤◌, ℕ, All, length, slice_index};
ghost use Rattle.hq_value.specs.Kinds.{Fits};

use crate::hand::{self, MemLane, MemTxn};
use crate::world::{self, Failures};
use hq_block::encode_block;
use hq_lane::{LanePart, parts_make_a_lane};
use hq_store::{MemStore, Store};
use hq_value::{BUCKETS, FileId, Kinds, Marks, NoMemory, Row, kinds_of};
use std::alloc::Global;
use std::thread::Threads;
use std::time::{Clock, CpuClock, Duration, Instant};

/// What is timed.
#[derive(Clone, Copy)]
pub(crate) enum Times {
    /// So many rows written by so many nodes to one lane, so often, each time as one statement.
    Write { nodes: u8, rows: u64, times: u32 },
    /// The same rows, bucket by bucket, encoded and appended so often.
    Append { rows: u64, times: u32 },
    /// A lane with a file in each bucket cut into parts and made whole again, so often. By the clock it is the least time of
    /// one cut.
    Part { times: u32 },
}

/// How long something took by the clock, and how much time of the processor.
#[derive(Clone, Copy)]
pub(crate) struct Took {
    pub(crate) clock: Duration,
    pub(crate) processor: Duration,
}

// When something began.
#[derive(Clone, Copy)]
struct Began {
    clock: Instant,
    processor: Duration,
}

fn begin<R: Clock + CpuClock>(rt: &R) -> Option<Began> {
    let processor = rt.process_cpu_time().ok()?;
    let clock = Instant::now(rt).ok()?;
    Some(Began { clock, processor })
}

fn time_since<R: Clock + CpuClock>(rt: &R, began: Began) -> Option<Took> {
    let clock = began.clock.elapsed(rt).ok()?;
    let processor = rt.process_cpu_time().ok()?.checked_sub(began.processor)?;
    Some(Took { clock, processor })
}

impl Times {
    /// What the words ask for.
    pub(crate) fn asked(words: &[String]) -> Option<Times> {
        let (first, numbers) = words.split_first()?;
        match (first.as_str(), numbers) {
            ("write", [nodes, rows, times]) => Some(Times::Write {
                nodes: nodes.parse().ok()?,
                rows: rows.parse().ok()?,
                times: times.parse().ok()?,
            }),
            ("append", [rows, times]) => Some(Times::Append {
                rows: rows.parse().ok()?,
                times: times.parse().ok()?,
            }),
            ("part", [times]) => Some(Times::Part {
                times: times.parse().ok()?,
            }),
            _ => None,
        }
    }

    /// The time that it takes. None where there is no memory or the clock fails.
    pub(crate) fn run<R: Threads + Sync + Clock + CpuClock>(
        &self,
        rt: &R,
        alloc: Global,
    ) -> Option<Took> {
        match self {
            Times::Write { nodes, rows, times } => time_writes(rt, alloc, *nodes, *rows, *times),
            Times::Append { rows, times } => time_appends(rt, alloc, *rows, *times),
            Times::Part { times } => time_parts(rt, alloc, *times),
        }
    }
}

// Gives up the lanes of the transaction, and ends it.
fn end(alloc: Global, txn: MemTxn) {
    let mut txn = txn;
    let mut store = MemStore::new(alloc, Vec::new(alloc));
    let mut seen = Vec::new(alloc);
    hand::give_up(&mut txn, &mut store, &mut seen);
    txn.close();
}

fn time_writes<R: Threads + Sync + Clock + CpuClock>(
    rt: &R,
    alloc: Global,
    nodes: u8,
    count: u64,
    times: u32,
) -> Option<Took> {
    let mut txn = MemTxn::new(alloc);
    txn.begin(false);
    let took = time_writes_of(rt, alloc, &mut txn, nodes.clamp(1, 16), count, times);
    end(alloc, txn);
    took
}

fn time_writes_of<R: Threads + Sync + Clock + CpuClock>(
    rt: &R,
    alloc: Global,
    txn: &mut MemTxn,
    nodes: u8,
    count: u64,
    times: u32,
) -> Option<Took>
    requires some { 0 < nodes }
    requires few { nodes ≤ 16 }
{
    let mut benches = world::benches(alloc, nodes as u64, Failures::NONE).ok()?;
    let marks = Marks::all_up(nodes);
    let def = world::table(alloc).ok()?;
    let rows = world::rows(alloc, count).ok()?;
    hand::take(alloc, txn, 0).ok()?;
    if !hand::all_fit_in(alloc, &def, &rows) {
        return None;
    }
    let began = begin(rt)?;
    for _ in 0..times {
        hand::write_fitting(rt, txn, &mut benches, &marks, &def, 0, &rows)?.ok()?;
    }
    time_since(rt, began)
}

// Those of so many rows that go to a bucket.
fn share(alloc: Global, count: u64, bucket: u8) -> Option<Vec<Row>> {
    let mut share = Vec::new(alloc);
    for place in 0..count {
        if place % 16 == u64::from(bucket) {
            share.push(world::row(alloc, place)).ok()?;
        }
    }
    Some(share)
}

// The rows as a block, appended so often to a new file.
fn append_often(
    alloc: Global,
    store: &mut MemStore,
    kinds: &Kinds,
    bucket: u8,
    rows: &[Row],
    times: u32,
) -> Option<()>
    requires some_kinds { 0 < length kinds.now }
    requires few_kinds { length kinds.now ≤ 64 }
    requires some_rows { 0 < length rows.now }
    requires fit { All (Fits kinds.now) rows.now }
{
    let id = FileId {
        table: 0,
        lane: 0,
        bucket,
    };
    let mut file = store.create(id).ok()?;
    for _ in 0..times {
        let block = encode_block(alloc, kinds, rows).ok()?;
        store.append(&mut file, &block).ok()?;
    }
    Some(())
}

// The same of each bucket.
fn append_all(alloc: Global, kinds: &Kinds, shares: &[Vec<Row>], times: u32) -> Option<()> {
    let mut store = MemStore::new(alloc, Vec::new(alloc));
    for share in shares {
        if share.is_empty() || kinds.len() != 1 || !hq_value::all_fit(kinds, share) {
            return None;
        }
        append_often(alloc, &mut store, kinds, 0, share, times)?;
    }
    Some(())
}

fn time_appends<R: Clock + CpuClock>(
    rt: &R,
    alloc: Global,
    count: u64,
    times: u32,
) -> Option<Took> {
    let def = world::table(alloc).ok()?;
    let kinds = kinds_of(alloc, def.columns().as_slice()).ok()?;
    let mut shares = Vec::new(alloc);
    for bucket in 0..16u8 {
        shares.push(share(alloc, count, bucket)?).ok()?;
    }
    let began = begin(rt)?;
    append_all(alloc, &kinds, &shares, times)?;
    time_since(rt, began)
}

// Four nodes own the buckets.
fn owners() -> [u8; BUCKETS]
    ensures { (b : ℕ) → b < 16 → slice_index result b < 16 }
{
    let mut owner = [0u8; BUCKETS];
    for bucket in 0..16u8 {
        owner[bucket as usize] = bucket % 4;
    }
    owner
}

// How long ago that was.
fn elapsed<R: Clock>(rt: &R, began: Option<Instant>) -> Option<Duration> {
    began?.elapsed(rt).ok()
}

// The lesser of two times that are told.
fn least(first: Option<Duration>, second: Option<Duration>) -> Option<Duration> {
    match (first, second) {
        (Some(first), Some(second)) if second < first => Some(second),
        (Some(first), _) => Some(first),
        (None, second) => second,
    }
}

// Cuts a lane into parts so often and makes it whole again. The least time of one cut, if there was memory for all.
fn part_often<R: Clock>(
    rt: &R,
    alloc: Global,
    lane: MemLane,
    times: u32,
) -> (MemLane, Option<Duration>) {
    let owner = owners();
    let mut lane = lane;
    let mut best = None;
    for _ in 0..times {
        let began = Instant::now(rt).ok();
        match lane.part(alloc, &owner) {
            Ok(parts) => {
                best = least(best, elapsed(rt, began));
                parts_make_a_lane();
                lane = LanePart::whole(parts);
            }
            Err((back, NoMemory)) => return (back, None),
        }
    }
    (lane, best)
}

// The time of that, of the last of the lanes, which are given up.
fn time_parts_of<R: Clock + CpuClock>(
    rt: &R,
    alloc: Global,
    lanes: Vec<MemLane>,
    times: u32,
) -> Option<Took> {
    let mut lanes = lanes;
    let began = begin(rt);
    let mut best = None;
    while let Some(lane) = lanes.pop() {
        let (lane, found) = part_often(rt, alloc, lane, times);
        lane.abandon();
        best = found;
    }
    lanes.destroy_empty();
    let all = time_since(rt, began?)?;
    Some(Took {
        clock: best?,
        processor: all.processor,
    })
}

fn time_parts<R: Threads + Sync + Clock + CpuClock>(
    rt: &R,
    alloc: Global,
    times: u32,
) -> Option<Took> {
    let mut txn = MemTxn::new(alloc);
    txn.begin(false);
    let written = time_writes_of(rt, alloc, &mut txn, 1, 16, 1);
    let mut store = MemStore::new(alloc, Vec::new(alloc));
    let lanes = hand::commit(alloc, &mut txn, &mut store);
    end(alloc, txn);
    let took = time_parts_of(rt, alloc, lanes, times);
    written?;
    took
}
