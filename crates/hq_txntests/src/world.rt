//! What a case runs with: benches, of which one node's store or host is planned to fail, and rows.

use hq_detect::{Bench, Benches, ListHost};
use hq_store::{MemStore, Planned};
use hq_value::{Column, Columns, Keys, Kind, Name, NoMemory, Row, TableDef, Value};
use std::alloc::Global;

/// A call of a node's store that fails and the bytes that it leaves as an append, a later call of it that fails too, and a
/// check of a node's host that fails. A number 0 is no call and no check.
#[derive(Clone, Copy)]
pub(crate) struct Failures {
    pub(crate) store: u64,
    pub(crate) call: u64,
    pub(crate) tail: u32,
    pub(crate) later: u64,
    pub(crate) host: u64,
    pub(crate) check: u64,
}

impl Failures {
    pub(crate) const NONE: Failures = Failures {
        store: 0,
        call: 0,
        tail: 0,
        later: 0,
        host: 0,
        check: 0,
    };
}

/// A node's bench.
pub(crate) type MemBench = Bench<MemStore, ListHost, ()>;

/// The benches of all nodes.
pub(crate) type MemBenches = Benches<MemStore, ListHost, ()>;

// The failing calls of a node's store.
fn planned(alloc: Global, node: u64, failures: Failures) -> Result<Vec<Planned>, NoMemory> {
    let mut plan = Vec::new(alloc);
    if node == failures.store {
        for call in [failures.call, failures.later] {
            plan.push(Planned {
                call,
                tail: failures.tail,
            })?;
        }
    }
    Ok(plan)
}

// The failing checks of a node's host.
fn failing_checks(alloc: Global, node: u64, failures: Failures) -> Result<Vec<u64>, NoMemory> {
    let mut checks = Vec::new(alloc);
    if node == failures.host {
        checks.push(failures.check)?;
    }
    Ok(checks)
}

fn bench(alloc: Global, node: u64, failures: Failures) -> Result<MemBench, NoMemory> {
    let plan = planned(alloc, node, failures)?;
    let checks = failing_checks(alloc, node, failures)?;
    Ok(Bench {
        store: MemStore::new(alloc, plan),
        host: ListHost::new(checks),
        link: (),
    })
}

/// The benches of so many nodes.
pub(crate) fn benches(
    alloc: Global,
    nodes: u64,
    failures: Failures,
) -> Result<MemBenches, NoMemory> {
    let mut benches = Vec::new(alloc);
    for node in 0..nodes {
        benches.push(bench(alloc, node, failures)?)?;
    }
    Ok(benches)
}

/// A table of one column of integers, whose rows are spread by their places.
pub(crate) fn table(alloc: Global) -> Result<TableDef, NoMemory> {
    let mut columns = Columns::new(alloc);
    columns.push(Column {
        name: Name::new(b"a".to_vec(alloc)?),
        kind: Kind::Int,
        not_null: false,
    })?;
    let name = Name::new(b"t".to_vec(alloc)?);
    TableDef::new(alloc, name, columns, Keys::new(alloc))
}

/// The row of a place, which has its number.
pub(crate) fn row(alloc: Global, place: u64) -> Row {
    Row::one(alloc, Value::Int((place % 1000) as i64))
}

/// So many rows.
pub(crate) fn rows(alloc: Global, count: u64) -> Result<Vec<Row>, NoMemory> {
    let mut rows = Vec::new(alloc);
    for place in 0..count {
        rows.push(row(alloc, place))?;
    }
    Ok(rows)
}
