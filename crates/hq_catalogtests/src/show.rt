//! What a session is told, as text.

use crate::turns::{Handed, Said};
use hq_snap::TableDelta;
use hq_store::SealCopy;
use hq_untold::UntoldSeal;
use hq_value::Marks;
use std::test::Fail;

fn show_handed(rt: HostRuntime, word: &str, handed: Handed) -> Result<(), Fail> {
    println!(rt; " {word} lane {} of table {}", handed.lane, handed.table)?;
    Ok(())
}

// The seals of a table, as lane, bucket and length.
fn show_table(rt: HostRuntime, delta: &TableDelta<UntoldSeal>) -> Result<(), Fail> {
    let columns = delta.def().columns().as_slice().len();
    print!(rt; "  table {}, columns {columns}, seals", delta.table())?;
    for file in delta.files() {
        print!(rt; " {}.{} {}", file.lane(), file.bucket(), file.seal().len())?;
    }
    println!(rt; "")?;
    Ok(())
}

fn show_marks(rt: HostRuntime, marks: &Marks) -> Result<(), Fail> {
    for node in 0..marks.nodes() {
        let word = if marks.is_up(node) { "up" } else { "down" };
        print!(rt; " {word}")?;
    }
    println!(rt; "")?;
    Ok(())
}

fn show_seen(
    rt: HostRuntime,
    at: u64,
    marks: &Marks,
    tables: &[TableDelta<UntoldSeal>],
) -> Result<(), Fail> {
    print!(rt; " seen at {at}, nodes")?;
    show_marks(rt, marks)?;
    for table in tables {
        show_table(rt, table)?;
    }
    Ok(())
}

/// Shows what a session is told, behind what it has asked.
pub(crate) fn show(rt: HostRuntime, said: &Said) -> Result<(), Fail> {
    print!(rt; ":")?;
    match said {
        Said::Seen { at, marks, tables } => return show_seen(rt, *at, marks, tables),
        Said::Clean(handed) => return show_handed(rt, "clean", *handed),
        Said::Sweep(handed) => return show_handed(rt, "to sweep", *handed),
        Said::Fresh(handed) => return show_handed(rt, "fresh", *handed),
        Said::Adopted(handed) => return show_handed(rt, "adopted", *handed),
        Said::Made(table) => println!(rt; " made table {table}")?,
        Said::Exists => println!(rt; " exists")?,
        Said::TooManyTables(made) => println!(rt; " too many tables, {made} are made")?,
        Said::Altered(table) => println!(rt; " altered table {table}")?,
        Said::NoTable => println!(rt; " no table")?,
        Said::TooManyColumns(columns) => println!(rt; " too many columns, {columns} are there")?,
        Said::ColumnThere => println!(rt; " column there")?,
        Said::AllOut(out) => println!(rt; " all {out} are out")?,
        Said::Done => println!(rt; " done")?,
        Said::Nothing => println!(rt; " nothing")?,
        Said::NoMemory => println!(rt; " no memory")?,
        Said::MayNotAsk => println!(rt; " may not ask")?,
    }
    Ok(())
}
