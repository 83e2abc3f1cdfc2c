//! The cases of slices.
ghost use Rattle.std.specs.Prelude.{◌≡◌, IsTrue};
ghost use Rattle.hq_value.specs.Kinds.{kinds_of as column_kinds};
ghost use Rattle.hq_planwire.specs.Wire.{IsPlan};
ghost use Rattle.hq_slicetests.specs.Works.{two, plan_by};
ghost use Rattle.hq_slicetests.specs.declared.plans.Work.{Work};

use crate::plans::{Work, plan_of};
use crate::table::{Filled, Size, fill_table};
use hq_cases as cases;
use hq_detect::{Host, ListHost};
use hq_exec::{SliceEnd, run_slice};
use hq_planwire::encode_plan;
use hq_snap::TableSnap;
use hq_store::Store;
use hq_untold::{Reads, UntoldSeal, UntoldStore};
use hq_value::{Kind, Kinds, Row, Value, kinds_of};
use std::alloc::Global;
use std::slice;
use std::test::Fail;

fn are_two_ints(kinds: &Kinds) -> bool
    ensures { IsTrue result → kinds.now ≡ two }
{
    matches!(kinds.as_slice(), [Kind::Int, Kind::Int])
}

// The slice of a plan in bytes over these buckets of the table.
fn run_bytes<H: Host>(
    alloc: Global,
    store: &mut UntoldStore,
    host: &mut H,
    table: &TableSnap<UntoldSeal>,
    bytes: &[u8],
    buckets: &[u8],
) -> SliceEnd
    requires number { table.now.table ≡ 0 }
    requires columns { column_kinds table.now.def.columns ≡ two }
    requires plan { (work : Work) × IsPlan (plan_by work) bytes.now }
{
    let tables = slice::from_ref(table);
    run_slice(alloc, store, host, bytes, 0, buckets, tables, &[], &[])
}

/// The slice over these buckets of the table. None where that is another one, or has other columns.
pub(crate) fn run_work<H: Host>(
    alloc: Global,
    store: &mut UntoldStore,
    host: &mut H,
    table: &TableSnap<UntoldSeal>,
    work: Work,
    buckets: &[u8],
) -> Result<Option<SliceEnd>, Fail> {
    if table.table() != 0 {
        return Ok(None);
    }
    let kinds = kinds_of(alloc, table.def().columns().as_slice())?;
    if !are_two_ints(&kinds) {
        return Ok(None);
    }
    let plan = plan_of(alloc, work)?;
    let bytes = encode_plan(alloc, &plan)?;
    let end = run_bytes(alloc, store, host, table, bytes.as_slice(), buckets);
    Ok(Some(end))
}

/// The same of the only table of these, where there is one.
pub(crate) fn run_only<H: Host>(
    alloc: Global,
    store: &mut UntoldStore,
    host: &mut H,
    tables: &[TableSnap<UntoldSeal>],
    work: Work,
    buckets: &[u8],
) -> Result<Option<SliceEnd>, Fail> {
    match tables.first() {
        Some(table) => run_work(alloc, store, host, table, work, buckets),
        None => Ok(None),
    }
}

// What the cases so far say: the size of the table, what reads give, and which checks of the host fail.
#[derive(Drop)]
struct Case {
    alloc: Global,
    size: Size,
    reads: Reads,
    fails: Vec<u64>,
}

// What the reads give by `written`, `zeros` or `byte AT BYTE`.
fn reads_of(text: &str) -> Reads {
    match text.split_once(' ') {
        Some((_, rest)) => {
            let (at, byte) = cases::counted(rest);
            let byte = (cases::number(byte) % 256) as u8;
            Reads::ByteAt {
                at: at as u64,
                byte,
            }
        }
        None => match text {
            "zeros" => Reads::Zeros,
            _ => Reads::Written,
        },
    }
}

fn buckets_of(alloc: Global, text: &str) -> Result<Vec<u8>, Fail> {
    let mut buckets = Vec::new(alloc);
    for number in &cases::numbers(alloc, text)? {
        buckets.push((*number % 16) as u8)?;
    }
    Ok(buckets)
}

fn show_row(line: &mut String, row: &Row) -> Result<(), Fail> {
    let mut lead = "(";
    for value in row.as_slice() {
        line.push_str(lead)?;
        match value {
            Value::Int(number) => write!(line, "{number}")?,
            _ => line.push_str("no number")?,
        }
        lead = " ";
    }
    line.push_str(")")?;
    Ok(())
}

fn show_rows(line: &mut String, rows: &[Row]) -> Result<(), Fail> {
    for row in rows {
        line.push_str(" ")?;
        show_row(line, row)?;
    }
    Ok(())
}

fn show_end(line: &mut String, end: &SliceEnd) -> Result<(), Fail> {
    match end {
        SliceEnd::Rows(rows) => show_rows(line, rows)?,
        SliceEnd::Numeric => line.push_str(" an evaluation faulted")?,
        SliceEnd::Store => line.push_str(" a fault of the store")?,
        SliceEnd::Host => line.push_str(" the host did not answer")?,
        SliceEnd::BadBlock { file, at, .. } => {
            let bucket = file.bucket;
            write!(line, " no block at {at} of bucket {bucket}")?;
        }
        SliceEnd::NoMemory => line.push_str(" no memory")?,
    }
    Ok(())
}

impl Case {
    fn run(&self, rt: HostRuntime, work: Work, buckets: &str) -> Result<(), Fail> {
        let alloc = self.alloc;
        let Filled { store, seen } = fill_table(alloc, self.size, self.reads)?;
        let mut store = store;
        let buckets = buckets_of(alloc, buckets)?;
        let mut host = ListHost::new(self.fails.to_vec(alloc)?);
        let end = run_only(alloc, &mut store, &mut host, seen.tables(), work, &buckets)?;
        let mut line = String::new(alloc);
        match &end {
            Some(end) => show_end(&mut line, end)?,
            None => line.push_str(" no slice")?,
        }
        println!(rt; "  {} bytes read:{line}", store.given())?;
        Ok(())
    }

    fn line(&mut self, rt: HostRuntime, word: &str, rest: &str) -> Result<(), Fail> {
        let (number, others) = cases::counted(rest);
        let most = (number % 1_000_000) as i64;
        match word {
            "rows" => {
                self.size = Size {
                    has_numbers: true,
                    rows: (number % 1_000_000) as u32,
                    at_once: (cases::number(others) % 1_000_000) as u32,
                }
            }
            "reads" => self.reads = reads_of(rest),
            "fails" => self.fails = cases::numbers(self.alloc, rest)?,
            "scan" => self.run(rt, Work::Scan, rest)?,
            "filter" => self.run(rt, Work::Filter(most), others)?,
            "group" => self.run(rt, Work::Group(most), others)?,
            "times" => self.run(
                rt,
                Work::Times(most.saturating_mul(1_000_000_000_000)),
                others,
            )?,
            _ => println!(rt; "{word} {rest}")?,
        }
        Ok(())
    }
}

/// Shows the cases of `slices.txt`.
pub(crate) fn run(rt: HostRuntime) -> Result<(), Fail> {
    let alloc = rt.alloc();
    let text = cases::text_of(rt, "slices.txt")?;
    let mut case = Case {
        alloc,
        size: Size {
            has_numbers: true,
            rows: 0,
            at_once: 0,
        },
        reads: Reads::Written,
        fails: Vec::new(alloc),
    };
    for line in text.as_str().lines() {
        if let Some((word, rest)) = cases::line_of(line) {
            case.line(rt, word, rest)?;
        }
    }
    Ok(())
}
