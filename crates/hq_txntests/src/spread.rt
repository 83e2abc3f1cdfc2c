//! Which rows a committed lane has in the file of each bucket.
ghost use Rattle.std.specs.Prelude.{◌<◌, ◌≤◌};

use crate::hand::{self, MemLane, MemTxn};
use crate::world::{self, Failures, MemBenches};
use hq_block::decode_block_into;
use hq_lane::OwnFile;
use hq_store::{MemStore, Store};
use hq_value::{Kinds, Marks, NoMemory, Row, TableDef, Value, kinds_of};
use std::alloc::Global;
use std::test::Fail;
use std::thread::Threads;

// The most blocks of a file that are read.
const MOST_BLOCKS: u8 = 16;

// The bytes of a bucket's file.
fn bytes_of(alloc: Global, store: &mut MemStore, lane: &MemLane, bucket: u8) -> Option<Vec<u8>>
    requires { bucket < 16 }
{
    let Some(own) = lane.own_file(bucket) else {
        return Some(Vec::new(alloc));
    };
    let OwnFile {
        file,
        base: _,
        good,
    } = own;
    let mut bytes = vec![in alloc; 0; good as usize].ok()?;
    store.read_own(file, 0, &mut bytes).ok()?;
    Some(bytes)
}

// The rows of the blocks that the bytes are.
fn rows_in(alloc: Global, kinds: &Kinds, bytes: &[u8]) -> Option<Vec<Row>> {
    let mut rows = Vec::new(alloc);
    let mut rest = bytes;
    for _ in 0..MOST_BLOCKS {
        if rest.is_empty() {
            break;
        }
        let len = decode_block_into(alloc, kinds, rest, &mut rows).ok()?;
        rest = &rest[len..];
    }
    Some(rows)
}

// The rows of each bucket.
fn rows_of_lane(
    alloc: Global,
    store: &mut MemStore,
    kinds: &Kinds,
    lane: &MemLane,
) -> Option<Vec<Vec<Row>>> {
    let mut buckets = Vec::new(alloc);
    for bucket in 0..16u8 {
        let bytes = bytes_of(alloc, store, lane, bucket)?;
        buckets.push(rows_in(alloc, kinds, &bytes)?).ok()?;
    }
    Some(buckets)
}

// The rows of each bucket of the last lane. The lanes are given up.
fn rows_of_lanes(
    alloc: Global,
    store: &mut MemStore,
    kinds: &Kinds,
    lanes: Vec<MemLane>,
) -> Option<Vec<Vec<Row>>> {
    let mut lanes = lanes;
    let mut rows = None;
    while let Some(lane) = lanes.pop() {
        if rows.is_none() {
            rows = rows_of_lane(alloc, store, kinds, &lane);
        }
        lane.abandon();
    }
    lanes.destroy_empty();
    rows
}

fn show_rows(rt: HostRuntime, rows: &[Row]) -> Result<(), Fail> {
    for row in rows {
        for value in row.as_slice() {
            match value {
                Value::Int(number) => print!(rt; " {number}")?,
                other => print!(rt; " {other:?}")?,
            }
        }
    }
    println!(rt; "")?;
    Ok(())
}

fn show_buckets(rt: HostRuntime, buckets: &[Vec<Row>]) -> Result<(), Fail> {
    for (bucket, rows) in buckets.iter().enumerate() {
        print!(rt; "  {bucket}:")?;
        show_rows(rt, rows)?;
    }
    Ok(())
}

// Writes the rows so often to one lane of the transaction.
fn write_often<R: Threads + Sync>(
    alloc: Global,
    tasks: &R,
    txn: &mut MemTxn,
    benches: &mut MemBenches,
    def: &TableDef,
    rows: &[Row],
    shape: Shape,
) -> Result<(), NoMemory>
    requires { (0 < shape.nodes) × (shape.nodes ≤ 16) }
{
    let marks = Marks::all_up(shape.nodes);
    hand::take(alloc, txn, 0)?;
    for _ in 0..shape.times {
        let _ = hand::write(tasks, alloc, txn, benches, &marks, def, 0, rows);
    }
    Ok(())
}

/// How many nodes write how many rows, and how often.
#[derive(Clone, Copy)]
pub(crate) struct Shape {
    pub(crate) nodes: u8,
    pub(crate) rows: u64,
    pub(crate) times: u64,
}

/// Writes rows so often to one lane, each time as one statement, prepares it, and shows what each bucket then has.
pub(crate) fn run<R: Threads + Sync>(rt: HostRuntime, tasks: &R, shape: Shape) -> Result<(), Fail>
    requires { (0 < shape.nodes) × (shape.nodes ≤ 16) }
{
    let alloc = rt.alloc();
    let mut benches = world::benches(alloc, shape.nodes as u64, Failures::NONE)?;
    let def = world::table(alloc)?;
    let kinds = kinds_of(alloc, def.columns().as_slice())?;
    let rows = world::rows(alloc, shape.rows)?;
    let mut txn = MemTxn::new(alloc);
    txn.begin(false);
    let written = write_often(alloc, tasks, &mut txn, &mut benches, &def, &rows, shape);
    let mut store = MemStore::new(alloc, Vec::new(alloc));
    let lanes = hand::commit(alloc, &mut txn, &mut store);
    let mut seen = Vec::new(alloc);
    hand::give_up(&mut txn, &mut store, &mut seen);
    txn.close();
    let found = rows_of_lanes(alloc, &mut store, &kinds, lanes);
    written?;
    match found {
        Some(buckets) => show_buckets(rt, &buckets)?,
        None => println!(rt; "  not read")?,
    }
    Ok(())
}
