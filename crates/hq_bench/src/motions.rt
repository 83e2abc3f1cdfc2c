//! Rows of one INT on their way between nodes.
ghost use Rattle.std.specs.Prelude.{◌≡◌, ◌∷◌, [], All, IfOk, IsTrue};
ghost use Rattle.hq_algebra.specs.declared.plan.Motion.TheVariants as motions;
ghost use Rattle.hq_value.specs.Bucket.{HasColumns};

use crate::operators::Timed;
use hq_algebra::{Keys16, Motion};
use hq_motion::{bytes_to_rows, rows_to_bytes, split_rows};
use hq_value::{Kind, Kinds, Marks, NoMemory, Row, Sequence, Value, all_fit};
use std::alloc::Global;
use std::time::{CpuClock, Duration};

/// A step, over how many rows at once it is done, and how often.
#[derive(Clone, Copy, Debug)]
pub struct Motions {
    step: Step,
    rows: u32,
    rounds: u32,
}

#[derive(Clone, Copy, Debug)]
enum Step {
    /// The rows are shared out over four nodes by their column.
    Split,
    /// They are put into bytes.
    Write,
    /// They are read from bytes.
    Read,
}

fn step_named(word: &str) -> Option<Step> {
    match word {
        "split" => Some(Step::Split),
        "write" => Some(Step::Write),
        "read" => Some(Step::Read),
        _ => None,
    }
}

fn rows(alloc: Global, count: u32) -> Result<Vec<Row>, NoMemory> {
    let mut rows = Vec::with_capacity(alloc, count as usize)?;
    for number in 0..count {
        rows.push(Row::one(alloc, Value::Int(i64::from(number))))?;
    }
    Ok(rows)
}

fn int_kind(alloc: Global) -> Result<Kinds, NoMemory> {
    let mut kinds = Sequence::new(alloc);
    kinds.push(Kind::Int)?;
    Ok(kinds)
}

fn first_column(alloc: Global) -> Result<Keys16, NoMemory>
    ensures { IfOk result (λ keys. keys ≡ 0 ∷ []) }
{
    let mut keys = Sequence::new(alloc);
    keys.push(0)?;
    Ok(keys)
}

fn have_a_column(rows: &[Row]) -> bool
    ensures { IsTrue result → All (HasColumns (0 ∷ [])) rows.now }
{
    for row in rows {
        if row.is_empty() {
            return false;
        }
    }
    true
}

// The rows for each of four nodes, of which each owns every fourth bucket.
fn over_four(
    alloc: Global,
    motion: &Motion,
    rows: Vec<Row>,
) -> Result<Vec<(u8, Vec<Row>)>, NoMemory>
    requires motion { motion.now ≡ motions.Redistribute (0 ∷ []) }
    requires columns { All (HasColumns (0 ∷ [])) rows.items }
{
    let owner: [u8; 16] = [0, 1, 2, 3, 0, 1, 2, 3, 0, 1, 2, 3, 0, 1, 2, 3];
    split_rows(alloc, motion, rows, &owner, &Marks::all_up(4))
}

// The processor time that the rows took to be shared out.
fn split<R: CpuClock>(rt: &R, alloc: Global, rows: Vec<Row>) -> Option<Duration> {
    if !have_a_column(rows.as_slice()) {
        return None;
    }
    let keys = first_column(alloc).ok()?;
    let motion = Motion::Redistribute(keys);
    let start = rt.process_cpu_time().ok()?;
    let lists = over_four(alloc, &motion, rows).ok()?;
    let took = since(rt, start)?;
    if lists.len() != 4 {
        return None;
    }
    Some(took)
}

// The processor time that the rows took to be written.
fn write<R: CpuClock>(rt: &R, alloc: Global, kinds: &Kinds, rows: &[Row]) -> Option<Duration> {
    if kinds.is_empty() || !all_fit(kinds, rows) {
        return None;
    }
    let start = rt.process_cpu_time().ok()?;
    let bytes = rows_to_bytes(alloc, kinds, rows).ok()?;
    let took = since(rt, start)?;
    if bytes.is_empty() {
        return None;
    }
    Some(took)
}

// The rows in bytes, if they fit the kinds.
fn in_bytes(alloc: Global, kinds: &Kinds, rows: &[Row]) -> Option<Vec<u8>> {
    if kinds.is_empty() || !all_fit(kinds, rows) {
        return None;
    }
    rows_to_bytes(alloc, kinds, rows).ok()
}

// The processor time that the rows took to be read.
fn read<R: CpuClock>(rt: &R, alloc: Global, kinds: &Kinds, bytes: &[u8]) -> Option<Duration> {
    if kinds.is_empty() {
        return None;
    }
    let start = rt.process_cpu_time().ok()?;
    let rows = bytes_to_rows(alloc, kinds, bytes).ok()?;
    let took = since(rt, start)?;
    if rows.is_empty() {
        return None;
    }
    Some(took)
}

fn since<R: CpuClock>(rt: &R, start: Duration) -> Option<Duration> {
    rt.process_cpu_time().ok()?.checked_sub(start)
}

impl Motions {
    /// What the words ask for.
    pub fn asked(words: &[String]) -> Option<Motions> {
        let [layer, step, rows, rounds] = words else {
            return None;
        };
        if layer.as_str() != "motions" {
            return None;
        }
        Some(Motions {
            step: step_named(step)?,
            rows: rows.parse().ok()?,
            rounds: rounds.parse().ok()?,
        })
    }

    /// How many rows went through the step in all, and how long it took. None without memory, where there is no row, or
    /// where the clock doesn't tell.
    pub fn run<R: CpuClock>(&self, rt: &R, alloc: Global) -> Option<Timed> {
        let mut took = Duration::ZERO;
        for _ in 0..self.rounds {
            took = took.checked_add(self.round(rt, alloc)?)?;
        }
        Some(Timed {
            rows: (self.rows as usize).saturating_mul(self.rounds as usize),
            took,
        })
    }

    fn round<R: CpuClock>(&self, rt: &R, alloc: Global) -> Option<Duration> {
        let rows = rows(alloc, self.rows).ok()?;
        let kinds = int_kind(alloc).ok()?;
        match self.step {
            Step::Split => split(rt, alloc, rows),
            Step::Write => write(rt, alloc, &kinds, &rows),
            Step::Read => {
                let bytes = in_bytes(alloc, &kinds, &rows)?;
                read(rt, alloc, &kinds, &bytes)
            }
        }
    }
}
