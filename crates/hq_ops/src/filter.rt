//! Rows kept by a condition.
ghost use Rattle.std.specs.Prelude.{◌≡◌, false};
ghost use Rattle.hq_algebra.specs.Eval.{is_true, is_true_at};
ghost use Rattle.hq_algebra.specs.Steps.{compare_of};
ghost use Rattle.hq_meaning.specs.Operators.{filtered};
ghost use Rattle.hq_ops.specs.Ends.{Gives, IsNumericAt, IsGiven};

use crate::OpEnd;
use crate::standing::standing;
use hq_algebra::{CompareKind, Expr, look};
use hq_value::{Row, Value, compare_values};
use std::alloc::Global;

/// The rows at which the condition is true, in order. They are given whatever memory there is, since none is taken.
pub fn filter_rows(_alloc: Global, cond: &Expr, rows: Vec<Row>) -> OpEnd
    ensures rows { Gives result (filtered cond.now rows.items) }
    ensures numeric { IsNumericAt result false }
    ensures given { IsGiven result }
{
    OpEnd::Rows(keep(cond, rows))
}

/// The rows at which the condition is true, in order.
pub fn keep(cond: &Expr, rows: Vec<Row>) -> Vec<Row>
    ensures { result.items ≡ filtered cond.now rows.items }
{
    let mut rows = rows;
    rows.retain(|row| is_true(cond, row));
    rows
}

// The comparison of two values that stand in the row or the condition is the most common one.
#[inline]
fn is_true(cond: &Expr, row: &Row) -> bool
    ensures { result ≡ is_true_at cond.now row.now }
{
    match cond {
        Expr::Compare { kind, left, right } => {
            match (
                standing(left.get(), row.as_slice()),
                standing(right.get(), row.as_slice()),
            ) {
                (Some(a), Some(b)) => is_true_compare(*kind, a, b),
                _ => is_seen_true(cond, row),
            }
        }
        _ => is_seen_true(cond, row),
    }
}

#[inline]
fn is_true_compare(kind: CompareKind, a: &Value, b: &Value) -> bool
    ensures { result ≡ is_true (compare_of kind a.now b.now) }
{
    match (a, b) {
        (Value::Int(a), Value::Int(b)) => kind.passes(a.cmp(b)),
        (Value::Null, _) | (_, Value::Null) => false,
        _ => kind.passes(compare_values(a, b)),
    }
}

fn is_seen_true(cond: &Expr, row: &Row) -> bool
    ensures { result ≡ is_true_at cond.now row.now }
{
    match look(cond, row.as_slice()) {
        Some(seen) => is_true_value(seen.get()),
        None => false,
    }
}

fn is_true_value(value: &Value) -> bool
    ensures { result ≡ is_true value.now }
{
    matches!(value, Value::Bool(true))
}
