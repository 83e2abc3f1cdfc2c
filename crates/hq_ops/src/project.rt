//! Values computed over each row.
ghost use Rattle.std.specs.Prelude.{◌≡◌, IfOk, map};
ghost use Rattle.std.specs.List.{list_any};
ghost use Rattle.hq_algebra.specs.Eval.{value_at, faults_at};
ghost use Rattle.hq_meaning.specs.Operators.{projected, project_faults};
ghost use Rattle.hq_ops.specs.Ends.{Gives, IsNumericAt, StopsAt};

use crate::OpEnd;
use crate::end::Stop;
use hq_algebra::{Evaluated, Expr, Exprs, eval};
use hq_value::{Row, Value};
use std::alloc::Global;

/// The values of the items over each row, in order. Numeric where one of them faults over some row.
pub fn project_rows(alloc: Global, items: &Exprs, rows: &[Row]) -> OpEnd
    ensures rows { Gives result (projected items.now rows.now) }
    ensures numeric { IsNumericAt result (project_faults items.now rows.now) }
{
    OpEnd::of(project(alloc, items.as_slice(), rows))
}

/// The values of the items over each row, in order.
pub fn project(alloc: Global, items: &[Expr], rows: &[Row]) -> Result<Vec<Row>, Stop>
    ensures rows { IfOk result (λ found. found.items ≡ projected items.now rows.now) }
    ensures numeric { StopsAt result (project_faults items.now rows.now) }
{
    let mut found = Vec::with_capacity(alloc, rows.len())?;
    for row in rows {
        found.push(values(alloc, items, row)?)?;
    }
    Ok(found)
}

fn values(alloc: Global, items: &[Expr], row: &Row) -> Result<Row, Stop>
    ensures values { IfOk result (λ values. values ≡ map (λ e. value_at e row.now) items.now) }
    ensures numeric { StopsAt result (list_any (λ e. faults_at e row.now) items.now) }
{
    let mut values = Row::with_capacity(alloc, items.len())?;
    for item in items {
        values.push(value(item, row)?)?;
    }
    Ok(values)
}

/// The value of an expression over a row.
pub fn value(e: &Expr, row: &Row) -> Result<Value, Stop>
    ensures value { IfOk result (λ value. value ≡ value_at e.now row.now) }
    ensures numeric { StopsAt result (faults_at e.now row.now) }
{
    match eval(e, row) {
        Evaluated::Is(value) => Ok(value),
        Evaluated::Fault => Err(Stop::Numeric),
        Evaluated::NoMemory => Err(Stop::NoMemory),
    }
}
