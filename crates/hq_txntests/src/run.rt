//! One case: rows for two tables written in one transaction, which is then prepared or given up.
ghost use Rattle.std.specs.Prelude.{◌≡◌, ◌<◌, ◌≤◌, []};

use crate::hand::{self, MemTxn, Seen};
use crate::spread::{self, Shape};
use crate::world::{self, Failures, MemBenches};
use hq_cases as cases;
use hq_store::{MemStore, Store};
use hq_txn::WriteEnd;
use hq_value::{Marks, Row, TableDef};
use std::alloc::Global;
use std::test::Fail;
use std::thread::Threads;

// What a case is run with.
#[derive(Clone, Copy)]
struct Plan {
    nodes: u8,
    rows: u64,
    commits: bool,
    failures: Failures,
}

// The most calls of a store that are tried.
const MOST_CALLS: u64 = 200;

fn show_end(rt: HostRuntime, end: Option<Result<(), WriteEnd>>) -> Result<(), Fail> {
    match end {
        None => print!(rt; ", no write")?,
        Some(Ok(())) => print!(rt; ", written")?,
        Some(Err(why)) => print!(rt; ", {why:?}")?,
    }
    Ok(())
}

// Writes the rows to tables 0 and 1, and prepares the transaction if it is to be.
fn drive<R: Threads + Sync>(
    rt: HostRuntime,
    tasks: &R,
    txn: &mut MemTxn,
    benches: &mut MemBenches,
    def: &TableDef,
    rows: &[Row],
    plan: Plan,
    seen: &mut Vec<Seen>,
) -> Result<(), Fail>
    requires { (0 < plan.nodes) × (plan.nodes ≤ 16) }
{
    let marks = Marks::all_up(plan.nodes);
    for table in 0..2u32 {
        hand::take(rt.alloc(), txn, table)?;
        let end = hand::write(tasks, rt.alloc(), txn, benches, &marks, def, table, rows);
        show_end(rt, end)?;
    }
    print!(rt; ", {:?}", txn.state())?;
    if let Some(bench) = benches.first_mut() {
        if plan.commits {
            hand::prepare(rt, txn, &mut bench.store, seen)?;
        }
    }
    print!(rt; ", {:?}", txn.state())?;
    Ok(())
}

// Gives up the lanes that are left, by the store of node 0, and notes them.
fn give_up_all(alloc: Global, txn: &mut MemTxn, benches: &mut MemBenches, seen: &mut Vec<Seen>)
    ensures { txn.new.lanes ≡ [] }
{
    if let Some(bench) = benches.first_mut() {
        hand::give_up(txn, &mut bench.store, seen);
        return;
    }
    let mut none = MemStore::new(alloc, Vec::new(alloc));
    hand::give_up(txn, &mut none, seen);
}

// How many faults the stores met.
fn faults(benches: &MemBenches) -> u64 {
    let mut sum: u64 = 0;
    for bench in benches {
        sum = sum.saturating_add(bench.store.faults());
    }
    sum
}

// Runs a case, and answers how many faults the stores met.
fn run<R: Threads + Sync>(rt: HostRuntime, tasks: &R, plan: Plan) -> Result<u64, Fail>
    requires { (0 < plan.nodes) × (plan.nodes ≤ 16) }
{
    let mut benches = world::benches(rt.alloc(), plan.nodes as u64, plan.failures)?;
    let def = world::table(rt.alloc())?;
    let rows = world::rows(rt.alloc(), plan.rows)?;
    let mut txn = MemTxn::new(rt.alloc());
    txn.begin(false);
    let mut seen = Vec::new(rt.alloc());
    let driven = drive(
        rt,
        tasks,
        &mut txn,
        &mut benches,
        &def,
        &rows,
        plan,
        &mut seen,
    );
    give_up_all(rt.alloc(), &mut txn, &mut benches, &mut seen);
    let state = txn.state();
    txn.close();
    driven?;
    hand::show(rt, &seen)?;
    println!(rt; ", {state:?}")?;
    Ok(faults(&benches))
}

// Runs a case with each call of a store failing in turn, and the one behind it too if that is asked for, until none fails.
fn each_call<R: Threads + Sync>(
    rt: HostRuntime,
    tasks: &R,
    plan: Plan,
    twice: bool,
) -> Result<(), Fail>
    requires { (0 < plan.nodes) × (plan.nodes ≤ 16) }
{
    for call in 1..MOST_CALLS {
        let mut failing = plan;
        failing.failures.call = call;
        if twice {
            failing.failures.later = call + 1;
        }
        print!(rt; "  call {call}")?;
        if run(rt, tasks, failing)? == 0 {
            return Ok(());
        }
    }
    Ok(())
}

// A number of nodes from 1 to 16.
fn nodes(number: u64) -> u8
    ensures { (0 < result) × (result ≤ 16) }
{
    number.clamp(1, 16) as u8
}

// What fails of a line's numbers, of which the first two are those of nodes and rows.
fn failures(word: &str, numbers: &[u64]) -> Failures {
    let mut failures = Failures::NONE;
    match word {
        "host" => {
            failures.host = number(numbers, 2);
            failures.check = number(numbers, 3);
        }
        "both" => {
            failures.store = number(numbers, 2);
            failures.call = 1;
            failures.host = number(numbers, 3);
            failures.check = 1;
        }
        _ => {
            failures.store = number(numbers, 2);
            failures.tail = number(numbers, 3).min(1000) as u32;
        }
    }
    failures
}

/// Runs a line of cases. Behind the word are the numbers of nodes and rows, and then:
/// - `commit`, `rollback`: none;
/// - `spread`: how often the rows are written to one lane;
/// - `host`: the node whose host fails, and at which check;
/// - `both`: a node whose store fails at its first call, and one whose host fails at its first check;
/// - `each_commit`, `each_rollback`: the node of whose store each call fails in turn, and the bytes that a failing append
///   leaves; `each_twice`: the call behind that one fails too.
pub(crate) fn case<R: Threads + Sync>(
    rt: HostRuntime,
    tasks: &R,
    word: &str,
    rest: &str,
) -> Result<(), Fail> {
    println!(rt; "{word} {rest}")?;
    let numbers = cases::numbers(rt.alloc(), rest)?;
    let plan = Plan {
        nodes: nodes(number(&numbers, 0)),
        rows: number(&numbers, 1),
        commits: !word.ends_with("rollback"),
        failures: failures(word, &numbers),
    };
    if word.starts_with("each") {
        return each_call(rt, tasks, plan, word == "each_twice");
    }
    if word == "spread" {
        let shape = Shape {
            nodes: plan.nodes,
            rows: plan.rows,
            times: number(&numbers, 2),
        };
        return spread::run(rt, tasks, shape);
    }
    print!(rt; "  all")?;
    run(rt, tasks, plan)?;
    Ok(())
}

// The number at a place, or 0.
fn number(numbers: &[u64], place: usize) -> u64 {
    match numbers.get(place) {
        Some(number) => *number,
        None => 0,
    }
}
