//! The first of equal rows.
ghost use Rattle.std.specs.Prelude.{◌≡◌, ◌++◌, List, IfOk, false};
ghost use Rattle.hq_value.specs.declared.value.Value.{Value as Datum};
ghost use Rattle.hq_meaning.specs.Operators.{distinct};
ghost use Rattle.hq_ops.specs.Ends.{Gives, IsNumericAt};

use crate::OpEnd;
use hq_value::{NoMemory, Row};
use indexmap::IndexSet;
use std::alloc::Global;

/// The first of equal rows, in order. NULLs are equal.
pub fn distinct_rows(alloc: Global, rows: Vec<Row>) -> OpEnd
    ensures rows { Gives result (distinct rows.items) }
    ensures numeric { IsNumericAt result false }
{
    match firsts(alloc, rows) {
        Ok(rows) => OpEnd::Rows(rows),
        Err(_) => OpEnd::NoMemory,
    }
}

fn firsts(alloc: Global, rows: Vec<Row>) -> Result<Vec<Row>, NoMemory>
    ensures { IfOk result (λ found. found.items ≡ distinct rows.items) }
{
    let seen = add_firsts(IndexSet::new(alloc), rows)?;
    collected(alloc, seen)
}

/// The rows of a set, in order.
pub fn collected(alloc: Global, seen: IndexSet<Row>) -> Result<Vec<Row>, NoMemory>
    ensures { IfOk result (λ found. found.items ≡ seen.keys) }
{
    let found = seen.into_iter().collect(alloc)?;
    Ok(found)
}

/// The first of equal rows, with more of them.
pub fn add_firsts(seen: IndexSet<Row>, rows: Vec<Row>) -> Result<IndexSet<Row>, NoMemory>
    ensures { (before : List (List Datum)) → seen.keys ≡ distinct before → IfOk result (λ seen. seen.keys ≡ distinct (before ++ rows.items)) }
{
    let mut seen = seen;
    for row in rows {
        seen.insert(row)?;
    }
    Ok(seen)
}
