//! The times of queries over many rows.
ghost use Rattle.std.specs.Prelude.{◌<◌, ◌≤◌};

use crate::benches::{Wrong, benches_with, list_hosts};
use crate::plans::Work;
use crate::queries::ask;
use crate::tables::{Pair, two_tables};
use hq_dispatch::QueryEnd;
use hq_snap::TableSnap;
use hq_untold::UntoldSeal;
use hq_value::Marks;
use std::alloc::Global;
use std::test::Fail;
use std::thread::Threads;
use std::time::{Clock, Duration, Instant};

// A query, the rows of the first table, the nodes, and how often it is run.
#[derive(Clone, Copy)]
struct Asked {
    work: Work,
    rows: u32,
    nodes: u8,
    rounds: u32,
}

// The first table has this many times the rows of the second.
const TIMES: u32 = 10;

// How many groups there are.
const GROUPS: u64 = 1_000;

// The number of a row of the first table. By a join each is another one, and those of the second table are among them.
fn number_of(work: Work, row: u32) -> i64 {
    let number = u64::from(row) * 7_919;
    match work {
        Work::Join => (number % 1_000_003) as i64,
        _ => (number % GROUPS) as i64,
    }
}

fn first_rows(alloc: Global, asked: Asked) -> Result<Vec<Pair>, Fail> {
    let mut pairs = Vec::new(alloc);
    for row in 0..asked.rows {
        pairs.push(Pair {
            key: i64::from(row),
            number: number_of(asked.work, row),
        })?;
    }
    Ok(pairs)
}

fn second_rows(alloc: Global, asked: Asked) -> Result<Vec<Pair>, Fail> {
    let mut pairs = Vec::new(alloc);
    for row in 0..asked.rows / TIMES {
        pairs.push(Pair {
            key: i64::from(row),
            number: i64::from(row) * i64::from(TIMES),
        })?;
    }
    Ok(pairs)
}

// The time of one run, and how many rows came. None where none did.
fn time_once<R: Threads + Clock + Sync>(
    rt: &R,
    alloc: Global,
    tables: &[TableSnap<UntoldSeal>],
    asked: Asked,
) -> Result<Option<(Duration, usize)>, Fail>
    requires some { 0 < asked.nodes }
    requires few { asked.nodes ≤ 16 }
{
    let hosts = list_hosts(alloc, asked.nodes, Wrong::NOTHING)?;
    let mut benches = benches_with(alloc, hosts, Wrong::NOTHING)?;
    let marks = Marks::all_up(asked.nodes);
    let start = Instant::now(rt)?;
    let end = ask(rt, alloc, &mut benches, tables, asked.work, &marks, 1)?;
    let took = start.elapsed(rt)?;
    match end {
        Some(QueryEnd::Rows(rows)) => Ok(Some((took, rows.len()))),
        _ => Ok(None),
    }
}

// The least time of all runs, and how many rows came.
fn time_all<R: Threads + Clock + Sync>(
    rt: &R,
    alloc: Global,
    asked: Asked,
) -> Result<Option<(Duration, usize)>, Fail>
    requires some { 0 < asked.nodes }
    requires few { asked.nodes ≤ 16 }
{
    let first = first_rows(alloc, asked)?;
    let second = second_rows(alloc, asked)?;
    let seen = two_tables(alloc, &first, &second)?;
    let mut best = None;
    for _ in 0..asked.rounds {
        let Some((took, count)) = time_once(rt, alloc, seen.tables(), asked)? else {
            return Ok(None);
        };
        best = match best {
            Some((least, _)) if least <= took => best,
            _ => Some((took, count)),
        };
    }
    Ok(best)
}

// What the words ask for.
fn asked_by(words: &[String]) -> Option<Asked> {
    let [work, rows, nodes, rounds] = words else {
        return None;
    };
    let work = match work.as_str() {
        "group" => Work::Group,
        "join" => Work::Join,
        _ => return None,
    };
    Some(Asked {
        work,
        rows: rows.parse().ok()?,
        nodes: nodes.parse().ok()?,
        rounds: rounds.parse().ok()?,
    })
}

/// Times what the words ask for.
pub(crate) fn run<R: Threads + Clock + Sync>(
    rt: HostRuntime,
    tasks: &R,
    words: &[String],
) -> Result<(), Fail> {
    let Some(asked) = asked_by(words) else {
        eprintln!(rt; "usage: hq_querytests group|join ROWS NODES ROUNDS")?;
        return Ok(());
    };
    if asked.nodes == 0 || asked.nodes > Marks::MOST_NODES {
        eprintln!(rt; "1 to 16 nodes")?;
        return Ok(());
    }
    match time_all(tasks, rt.alloc(), asked)? {
        Some((took, count)) => {
            println!(rt; "{count} rows in {} microseconds", took.as_micros())?;
        }
        None => eprintln!(rt; "no rows came")?,
    }
    Ok(())
}
