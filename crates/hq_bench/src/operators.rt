//! Operators over rows of two INTs: a key, and the row's number.
use hq_algebra::{Aggregate, Expr, Keys16, SortKey};
use hq_ops::{OpEnd, final_rows, join_rows, partial_rows, sort_rows};
use hq_value::{NoMemory, Row, Sequence, Value};
use std::alloc::Global;
use std::time::{CpuClock, Duration};

/// An operator, and over how many rows it is run.
#[derive(Clone, Copy, Debug)]
pub struct Operators {
    kind: Kind,
    rows: u32,
}

/// How many rows an operator gave, and the processor time that it took.
#[derive(Clone, Copy, Debug)]
pub struct Timed {
    pub rows: usize,
    pub took: Duration,
}

#[derive(Clone, Copy, Debug)]
enum Kind {
    /// Each row has one partner, among rows in another order.
    Join,
    /// 1,000 groups, each with a count and a sum.
    Group,
    /// By the key, then by the row's number.
    Sort,
}

fn kind_named(word: &str) -> Option<Kind> {
    match word {
        "join" => Some(Kind::Join),
        "group" => Some(Kind::Group),
        "sort" => Some(Kind::Sort),
        _ => None,
    }
}

// The rows' keys stand in no order.
fn key(kind: Kind, number: u32) -> i64 {
    let mixed = u64::from(number) * 7919;
    match kind {
        Kind::Join => (mixed % 100_003) as i64,
        Kind::Group => (mixed % 1_000) as i64,
        Kind::Sort => (mixed % 1_000_003) as i64,
    }
}

fn row(alloc: Global, key: i64, number: u32) -> Row {
    Row::two(alloc, Value::Int(key), Value::Int(i64::from(number)))
}

fn mixed_rows(alloc: Global, kind: Kind, count: u32) -> Result<Vec<Row>, NoMemory> {
    let mut rows = Vec::with_capacity(alloc, count as usize)?;
    for number in 0..count {
        rows.push(row(alloc, key(kind, number), number))?;
    }
    Ok(rows)
}

fn rows_in_order(alloc: Global, count: u32) -> Result<Vec<Row>, NoMemory> {
    let mut rows = Vec::with_capacity(alloc, count as usize)?;
    for number in 0..count {
        rows.push(row(alloc, i64::from(number), number))?;
    }
    Ok(rows)
}

fn first_column(alloc: Global) -> Result<Keys16, NoMemory> {
    let mut keys = Sequence::new(alloc);
    keys.push(0)?;
    Ok(keys)
}

// How many rows there are, none where there are none to count.
fn counted(end: OpEnd) -> Option<usize> {
    match end {
        OpEnd::Rows(rows) => Some(rows.len()),
        OpEnd::Numeric => None,
        OpEnd::NoMemory => None,
    }
}

impl Operators {
    /// What the words ask for.
    pub fn asked(words: &[String]) -> Option<Operators> {
        let [layer, kind, rows] = words else {
            return None;
        };
        if layer.as_str() != "operators" {
            return None;
        }
        Some(Operators {
            kind: kind_named(kind)?,
            rows: rows.parse().ok()?,
        })
    }

    /// What the operator gave and took. None without memory, or where the clock doesn't tell.
    pub fn run<R: CpuClock>(&self, rt: &R, alloc: Global) -> Option<Timed> {
        match self.kind {
            Kind::Join => self.join(rt, alloc),
            Kind::Group => self.group(rt, alloc),
            Kind::Sort => self.sort(rt, alloc),
        }
    }

    fn join<R: CpuClock>(&self, rt: &R, alloc: Global) -> Option<Timed> {
        let left = rows_in_order(alloc, self.rows).ok()?;
        let right = mixed_rows(alloc, self.kind, self.rows).ok()?;
        let keys = first_column(alloc).ok()?;
        let start = rt.process_cpu_time().ok()?;
        let end = join_rows(alloc, left.as_slice(), right.as_slice(), &keys, &keys);
        ended(rt, start, end)
    }

    fn group<R: CpuClock>(&self, rt: &R, alloc: Global) -> Option<Timed> {
        let rows = mixed_rows(alloc, self.kind, self.rows).ok()?;
        let keys = first_column(alloc).ok()?;
        let mut aggregates = Sequence::new(alloc);
        aggregates.push(Aggregate::CountAll).ok()?;
        aggregates.push(Aggregate::Sum(Expr::Column(1))).ok()?;
        let start = rt.process_cpu_time().ok()?;
        match partial_rows(alloc, &keys, &aggregates, rows.as_slice()) {
            OpEnd::Rows(partial) => {
                let end = final_rows(alloc, 1, &aggregates, partial.as_slice());
                ended(rt, start, end)
            }
            OpEnd::Numeric => None,
            OpEnd::NoMemory => None,
        }
    }

    fn sort<R: CpuClock>(&self, rt: &R, alloc: Global) -> Option<Timed> {
        let rows = mixed_rows(alloc, self.kind, self.rows).ok()?;
        let mut order = Sequence::new(alloc);
        order
            .push(SortKey {
                column: 0,
                descending: false,
            })
            .ok()?;
        let start = rt.process_cpu_time().ok()?;
        let end = sort_rows(&order, None, rows);
        ended(rt, start, end)
    }
}

// What an operator gave, and the time since it began.
fn ended<R: CpuClock>(rt: &R, start: Duration, end: OpEnd) -> Option<Timed> {
    let took = rt.process_cpu_time().ok()?.checked_sub(start)?;
    let rows = counted(end)?;
    Some(Timed { rows, took })
}
