//! Tables over a store in memory: rows lie in the buckets of their places or keys.

use hq_store::MemStore;
use hq_table::Table;
use hq_value::{Column, Columns, Keys, Kind, Name, NoMemory, Row, TableDef, Value};
use std::alloc::Global;
use std::test::Fail;

// The numbers from the first up to the last, each in a row.
fn rows(alloc: Global, first: i64, last: i64) -> Result<Vec<Row>, Fail> {
    let mut rows = Vec::new(alloc);
    for number in first..last {
        rows.push(Row::one(alloc, Value::Int(number)))?;
    }
    Ok(rows)
}

// A table of one column of integers.
fn table(alloc: Global, keyed: bool) -> Result<Table, NoMemory> {
    let mut columns = Columns::new(alloc);
    columns.push(Column {
        name: Name::new(b"a".to_vec(alloc)?),
        kind: Kind::Int,
        not_null: false,
    })?;
    let name = Name::new(b"t".to_vec(alloc)?);
    if keyed {
        let mut keys = Keys::new(alloc);
        keys.push(0)?;
        return Table::new(alloc, 0, TableDef::new(alloc, name, columns, keys)?);
    }
    let keys = Keys::new(alloc);
    Table::new(alloc, 0, TableDef::new(alloc, name, columns, keys)?)
}

// The rows of a new table with these numbers, bucket after bucket.
fn show(rt: HostRuntime, keyed: bool, given: Vec<Row>) -> Result<(), Fail> {
    let alloc = rt.alloc();
    let mut store = MemStore::new(alloc, Vec::new(alloc));
    let mut table = table(alloc, keyed)?;
    let named = table.is_named(&Name::new(b"t".to_vec(alloc)?));
    if !table.fits(&given) {
        println!(rt; "  they do not fit")?;
        return Ok(());
    }
    table.insert(alloc, &mut store, given)?;
    print!(rt; "  {named}:")?;
    for row in &table.scan(alloc, &mut store)? {
        if let [Value::Int(number)] = row.as_slice() {
            print!(rt; " {number}")?;
        }
    }
    println!(rt; "")?;
    Ok(())
}

/// Shows the rows of tables of one column, of which the buckets of 1 to 4 are 15, 2, 5 and 0.
pub fn run(rt: HostRuntime) -> Result<(), Fail> {
    let alloc = rt.alloc();
    println!(rt; "17 rows by their places, 4 by their key, and one that does not fit")?;
    show(rt, false, rows(alloc, 0, 17)?)?;
    show(rt, true, rows(alloc, 1, 5)?)?;
    let other = vec![in alloc; Row::one(alloc, Value::Bool(true))]?;
    show(rt, true, other)
}
