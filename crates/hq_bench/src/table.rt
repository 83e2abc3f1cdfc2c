//! A table filled and scanned.
ghost use Rattle.hq_table.specs.Home.{IsQuiet};

use hq_store::{MemStore, Store};
use hq_table::Table;
use hq_value::{Column, Columns, Keys, Kind, Name, NoMemory, Row, TableDef, Value};
use std::alloc::Global;

/// How many rows of one INT a table gets, how many of them by one insert, and how often all are scanned.
#[derive(Clone, Copy, Debug)]
pub struct Scans {
    rows: u32,
    at_once: u32,
    scans: u64,
}

/// How many rows were scanned, and how many bytes the store gave for them.
#[derive(Clone, Copy, Debug)]
pub struct Scanned {
    pub rows: u64,
    pub bytes: u64,
}

// A table of one column without a key.
fn table(alloc: Global) -> Result<Table, NoMemory> {
    let mut columns = Columns::new(alloc);
    columns.push(Column {
        name: Name::new(Vec::from_slice(alloc, b"a")?),
        kind: Kind::Int,
        not_null: false,
    })?;
    let name = Name::new(Vec::from_slice(alloc, b"t")?);
    let def = TableDef::new(alloc, name, columns, Keys::new(alloc))?;
    Table::new(alloc, 0, def)
}

// The numbers from the first up to the last, each in a row.
fn rows(alloc: Global, first: u32, last: u32) -> Result<Vec<Row>, NoMemory> {
    let mut rows = Vec::new(alloc);
    for number in first..last {
        rows.push(Row::one(alloc, Value::Int(i64::from(number))))?;
    }
    Ok(rows)
}

// Inserts the numbers from the first up to the last.
fn insert(
    alloc: Global,
    store: &mut MemStore,
    table: &mut Table,
    first: u32,
    last: u32,
) -> Option<()>
    requires { IsQuiet store.old }
    ensures { IsQuiet store.new }
{
    let rows = rows(alloc, first, last).ok()?;
    if !table.fits(&rows) {
        return None;
    }
    table.insert(alloc, store, rows).ok()
}

// Inserts all rows, so many at once.
fn fill(alloc: Global, store: &mut MemStore, table: &mut Table, asked: &Scans) -> Option<()>
    requires { IsQuiet store.old }
    ensures { IsQuiet store.new }
{
    let mut first = 0;
    while first < asked.rows {
        let last = asked.rows.min(first.saturating_add(asked.at_once.max(1)));
        insert(alloc, store, table, first, last)?;
        first = last;
    }
    Some(())
}

impl Scans {
    /// What the words ask for.
    pub fn asked(words: &[String]) -> Option<Scans> {
        let [layer, rows, at_once, scans] = words else {
            return None;
        };
        if layer.as_str() != "table" {
            return None;
        }
        Some(Scans {
            rows: rows.parse().ok()?,
            at_once: at_once.parse().ok()?,
            scans: scans.parse().ok()?,
        })
    }

    /// Fills a table and scans it. None comes without memory.
    pub fn run(&self, alloc: Global) -> Option<Scanned> {
        let mut store = MemStore::new(alloc, Vec::new(alloc));
        let mut table = table(alloc).ok()?;
        fill(alloc, &mut store, &mut table, self)?;
        let mut rows: u64 = 0;
        for _ in 0..self.scans {
            let found = table.scan(alloc, &mut store).ok()?;
            rows = rows.wrapping_add(found.len() as u64);
        }
        Some(Scanned {
            rows,
            bytes: store.given(),
        })
    }
}
