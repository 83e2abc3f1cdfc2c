//! What is done to a transaction and to the lanes that it hands out.
ghost use Rattle.std.specs.Prelude.{◌≡◌, [], All, IfOk, IsTrue};
ghost use Rattle.hq_value.specs.Kinds.{Fits, kinds_of};
ghost use Rattle.hq_lane.specs.Lanes.{AreClean, HaveNoSeal};

use crate::world::MemBenches;
use hq_lane::{Lane, OwnFile};
use hq_store::{MemFile, MemSeal, MemStore};
use hq_txn::{Txn, TxnState, WriteEnd};
use hq_value::{Marks, NoMemory, Row, TableDef, all_fit, kinds_of};
use std::alloc::Global;
use std::test::Fail;
use std::thread::Threads;

pub(crate) type MemTxn = Txn<MemFile, MemSeal>;

pub(crate) type MemLane = Lane<MemFile, MemSeal>;

// A lane without files, which is clean and has no seal.
fn fresh(alloc: Global, table: u32) -> Result<MemLane, NoMemory>
    ensures clean { IfOk result (λ lane. AreClean lane.files) }
    ensures no_seal { IfOk result (λ lane. HaveNoSeal lane.files) }
    ensures table { IfOk result (λ lane. lane.table ≡ table) }
{
    let lane = Lane::fresh(alloc, table, 0)?;
    Ok(lane)
}

/// Gives an open transaction a new lane of a table, if it has none.
pub(crate) fn take(alloc: Global, txn: &mut MemTxn, table: u32) -> Result<(), NoMemory> {
    match txn.state() {
        TxnState::Open => {}
        _ => return Ok(()),
    }
    if txn.has_lane(table) {
        return Ok(());
    }
    txn.reserve()?;
    let lane = fresh(alloc, table)?;
    txn.take(lane);
    Ok(())
}

/// Whether the rows fit the table. Without memory they don't.
pub(crate) fn all_fit_in(alloc: Global, def: &TableDef, rows: &[Row]) -> bool
    ensures { IsTrue result → All (Fits (kinds_of def.now.columns)) rows.now }
{
    match kinds_of(alloc, def.columns().as_slice()) {
        Ok(kinds) => all_fit(&kinds, rows),
        Err(NoMemory) => false,
    }
}

/// Writes rows where the transaction is open and has a lane of the table.
pub(crate) fn write_fitting<R: Threads + Sync>(
    tasks: &R,
    txn: &mut MemTxn,
    benches: &mut MemBenches,
    marks: &Marks,
    def: &TableDef,
    table: u32,
    rows: &[Row],
) -> Option<Result<(), WriteEnd>>
    requires { All (Fits (kinds_of def.now.columns)) rows.now }
{
    match txn.state() {
        TxnState::Open => {}
        _ => return None,
    }
    if !txn.has_lane(table) || !marks.some_up() || benches.len() != marks.nodes() as usize {
        return None;
    }
    Some(txn.write(tasks, benches, marks, table, def, rows))
}

/// The same of rows that fit, and nothing of others.
pub(crate) fn write<R: Threads + Sync>(
    tasks: &R,
    alloc: Global,
    txn: &mut MemTxn,
    benches: &mut MemBenches,
    marks: &Marks,
    def: &TableDef,
    table: u32,
    rows: &[Row],
) -> Option<Result<(), WriteEnd>> {
    if !all_fit_in(alloc, def, rows) {
        return None;
    }
    write_fitting(tasks, txn, benches, marks, def, table, rows)
}

// How many bytes a lane's files have, committed or whole blocks behind those.
fn good_bytes(lane: &MemLane) -> u64 {
    let mut sum: u64 = 0;
    for bucket in 0..16u8 {
        if let Some(own) = lane.own_file(bucket) {
            let OwnFile {
                file: _file,
                base: _,
                good,
            } = own;
            sum = sum.saturating_add(good);
        }
    }
    sum
}

/// A lane that was handed out: its table, how many bytes it has, and whether it is clean.
#[derive(Clone, Copy, Debug)]
pub(crate) struct Seen {
    table: u32,
    good: u64,
    clean: bool,
}

/// Notes a lane that was handed out, and gives it up.
fn note(seen: &mut Vec<Seen>, lane: MemLane) {
    let noted = seen.push(Seen {
        table: lane.table(),
        good: good_bytes(&lane),
        clean: lane.is_clean(),
    });
    lane.abandon();
    let _ = noted.is_ok();
}

fn note_all(seen: &mut Vec<Seen>, lanes: Vec<MemLane>) {
    let mut lanes = lanes;
    while !lanes.is_empty() {
        let lane = lanes.remove(0);
        note(seen, lane);
    }
    lanes.destroy_empty();
}

/// Shows the lanes that were handed out.
pub(crate) fn show(rt: HostRuntime, seen: &[Seen]) -> Result<(), Fail> {
    for lane in seen {
        let clean = if lane.clean { "clean" } else { "not clean" };
        print!(rt; ", {} has {} and is {clean}", lane.table, lane.good)?;
    }
    Ok(())
}

/// Gives up the lanes that are left, and notes them.
pub(crate) fn give_up(txn: &mut MemTxn, store: &mut MemStore, seen: &mut Vec<Seen>)
    ensures { txn.new.lanes ≡ [] }
{
    while let Some(lane) = txn.abort_one(store) {
        note(seen, lane);
    }
}

/// The lanes of an open transaction, prepared; none where it isn't open or that fails.
pub(crate) fn commit(alloc: Global, txn: &mut MemTxn, store: &mut MemStore) -> Vec<MemLane> {
    match txn.state() {
        TxnState::Open => {}
        _ => return Vec::new(alloc),
    }
    match txn.prepare_commit(store) {
        Ok(lanes) => lanes,
        Err(_) => Vec::new(alloc),
    }
}

/// Prepares an open transaction, and notes its lanes.
pub(crate) fn prepare(
    rt: HostRuntime,
    txn: &mut MemTxn,
    store: &mut MemStore,
    seen: &mut Vec<Seen>,
) -> Result<(), Fail> {
    match txn.state() {
        TxnState::Open => {}
        _ => return Ok(()),
    }
    match txn.prepare_commit(store) {
        Ok(lanes) => {
            note_all(seen, lanes);
            print!(rt; ", prepared")?;
        }
        Err(fault) => print!(rt; ", prepare {fault:?}")?,
    }
    Ok(())
}
