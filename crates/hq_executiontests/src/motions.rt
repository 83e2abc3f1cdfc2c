//! Rows shared out over nodes, and in bytes.
ghost use Rattle.std.specs.Prelude.{All, IsTrue};
ghost use Rattle.hq_value.specs.Bucket.{HasColumns};
ghost use Rattle.hq_motion.specs.Split.{CanMove};

use crate::exprs::{copied, kinds_of, places, row_of};
use crate::show::show_rows;
use hq_algebra::Motion;
use hq_block::RowFault;
use hq_cases as cases;
use hq_motion::{bytes_to_rows, rows_to_bytes, split_rows};
use hq_value::{Kinds, Marks, NoMemory, Row, all_fit};
use std::alloc::Global;
use std::test::Fail;

#[derive(Drop)]
struct Case {
    alloc: Global,
    kinds: Kinds,
    rows: Vec<Row>,
}

// The rows for each of three nodes, of which each owns every third bucket.
fn over_three(
    alloc: Global,
    motion: &Motion,
    rows: Vec<Row>,
) -> Result<Vec<(u8, Vec<Row>)>, NoMemory>
    requires { CanMove motion.now rows.items }
{
    let owner: [u8; 16] = [0, 1, 2, 0, 1, 2, 0, 1, 2, 0, 1, 2, 0, 1, 2, 0];
    split_rows(alloc, motion, rows, &owner, &Marks::all_up(3))
}

// Whether the rows can go by the motion.
fn can_move(motion: &Motion, rows: &[Row]) -> bool
    ensures { IsTrue result → CanMove motion.now rows.now }
{
    match motion {
        Motion::Gather => true,
        Motion::Broadcast => true,
        Motion::Redistribute(keys) => !keys.is_empty() && all_have(keys.as_slice(), rows),
        Motion::Result => false,
    }
}

fn all_have(keys: &[u16], rows: &[Row]) -> bool
    ensures { IsTrue result → All (HasColumns keys.now) rows.now }
{
    for row in rows {
        if !has(keys, row) {
            return false;
        }
    }
    true
}

fn has(keys: &[u16], row: &Row) -> bool
    ensures { IsTrue result → HasColumns keys.now row.now }
{
    for key in keys {
        if *key as usize >= row.len() {
            return false;
        }
    }
    true
}

impl Case {
    fn split(&self, rt: HostRuntime, motion: &Motion) -> Result<(), Fail> {
        let rows = copied(self.alloc, &self.rows)?;
        if !can_move(motion, rows.as_slice()) {
            println!(rt; "  they cannot go so")?;
            return Ok(());
        }
        for (node, rows) in &over_three(self.alloc, motion, rows)? {
            println!(rt; "  node {node}")?;
            show_rows(rt, rows)?;
        }
        Ok(())
    }

    fn read(&self, rt: HostRuntime, bytes: &[u8]) -> Result<(), Fail> {
        if self.kinds.is_empty() {
            return Ok(());
        }
        match bytes_to_rows(self.alloc, &self.kinds, bytes) {
            Ok(rows) => {
                println!(rt; "  {} rows", rows.len())?;
                show_rows(rt, &rows)
            }
            Err(RowFault::NotARow) => Ok(println!(rt; "  no rows")?),
            Err(RowFault::NoMemory) => Ok(println!(rt; "  no memory")?),
        }
    }

    // The rows in bytes, and the rows that these are.
    fn there_and_back(&self, rt: HostRuntime) -> Result<(), Fail> {
        if self.kinds.is_empty() || !all_fit(&self.kinds, &self.rows) {
            println!(rt; "  they do not fit")?;
            return Ok(());
        }
        let bytes = rows_to_bytes(self.alloc, &self.kinds, &self.rows)?;
        let shown = cases::shown(self.alloc, &bytes)?;
        println!(rt; "  {shown}")?;
        self.read(rt, &bytes)
    }

    fn line(&mut self, rt: HostRuntime, word: &str, rest: &str) -> Result<(), Fail> {
        match word {
            "row" => self.rows.push(row_of(self.alloc, rest)?)?,
            "kinds" => self.kinds = kinds_of(self.alloc, rest)?,
            "gather" => self.split(rt, &Motion::Gather)?,
            "broadcast" => self.split(rt, &Motion::Broadcast)?,
            "by" => self.split(rt, &Motion::Redistribute(places(self.alloc, rest)?))?,
            "bytes" => self.there_and_back(rt)?,
            "read" => {
                let mut bytes = Vec::new(self.alloc);
                cases::add(&mut bytes, rest)?;
                self.read(rt, &bytes)?;
            }
            _ => {
                println!(rt; "{word} {rest}")?;
                self.rows.clear();
            }
        }
        Ok(())
    }
}

/// Shows the cases of `motions.txt`.
pub fn run(rt: HostRuntime) -> Result<(), Fail> {
    let alloc = rt.alloc();
    let text = cases::text_of(rt, "motions.txt")?;
    let mut case = Case {
        alloc,
        kinds: Kinds::new(alloc),
        rows: Vec::new(alloc),
    };
    for line in text.as_str().lines() {
        if let Some((word, rest)) = cases::line_of(line) {
            case.line(rt, word, rest)?;
        }
    }
    Ok(())
}
