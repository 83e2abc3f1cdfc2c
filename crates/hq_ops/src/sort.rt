//! Rows in order.
ghost use Rattle.std.specs.Prelude.{◌≡◌, ◌∷◌, [], Some, false, take};
ghost use Rattle.std.specs.Ordering.{ordering_then};
ghost use Rattle.hq_value.specs.Order.{value_cmp, row_cmp};
ghost use Rattle.hq_algebra.specs.Eval.{column};
ghost use Rattle.hq_meaning.specs.Rows.{key_cmp, order_cmp, ordered, limited};
ghost use Rattle.hq_meaning.specs.Operators.{sorted};
ghost use Rattle.hq_ops.specs.Ends.{Gives, IsNumericAt};
ghost use Rattle.hq_ops.specs.Sorts.{StandFor};

use crate::OpEnd;
use hq_algebra::{SortKey, SortKeys};
use hq_value::{Row, Value, compare_rows, compare_values};
use std::cmp::Ordering;

/// The rows by the keys, each ascending, or descending in the reverse of value order, so with NULL first. Ties go by
/// row order. Where there is a limit, so many of the first. It takes no memory.
pub fn sort_rows(order: &SortKeys, limit: Option<u64>, rows: Vec<Row>) -> OpEnd
    ensures rows { Gives result (sorted order.now limit rows.items) }
    ensures numeric { IsNumericAt result false }
{
    OpEnd::Rows(sort_to(order.as_slice(), limit, rows))
}

/// The rows by the keys; where there is a limit, so many of the first.
pub fn sort_to(order: &[SortKey], limit: Option<u64>, rows: Vec<Row>) -> Vec<Row>
    ensures { result.items ≡ sorted order.now limit rows.items }
{
    limited(limit, sort(order, rows))
}

/// Rows that stand for these in a sort, whatever comes behind them: all, or where there is a limit and they are many,
/// so many of the first.
pub fn shortened(order: &[SortKey], limit: Option<u64>, rows: Vec<Row>) -> Vec<Row>
    ensures { StandFor order.now limit result.items rows.items }
{
    match limit {
        Some(limit) => shortened_to(order, limit, rows),
        None => rows,
    }
}

// As many rows again are kept as can be given, and some more, so that they are seldom sorted.
fn shortened_to(order: &[SortKey], limit: u64, rows: Vec<Row>) -> Vec<Row>
    ensures { StandFor order.now (Some limit) result.items rows.items }
{
    if rows.len() / 2 <= (limit as usize).saturating_add(1_024) {
        return rows;
    }
    sort_to(order, Some(limit), rows)
}

fn limited(limit: Option<u64>, rows: Vec<Row>) -> Vec<Row>
    ensures { result.items ≡ limited limit rows.items }
{
    match limit {
        Some(limit) => first(limit as usize, rows),
        None => rows,
    }
}

fn first(count: usize, rows: Vec<Row>) -> Vec<Row>
    ensures { result.items ≡ take count rows.items }
{
    let mut rows = rows;
    rows.truncate(count);
    rows
}

// Rows that tie are equal, so a sort that doesn't keep the order of ties does.
fn sort(order: &[SortKey], rows: Vec<Row>) -> Vec<Row>
    ensures { result.items ≡ ordered order.now rows.items }
{
    match order {
        [key] => sort_by_key(*key, rows),
        _ => sort_by_keys(order, rows),
    }
}

fn sort_by_keys(order: &[SortKey], rows: Vec<Row>) -> Vec<Row>
    ensures { result.items ≡ ordered order.now rows.items }
{
    let mut rows = rows;
    rows.sort_unstable_by(|a: &Row, b: &Row| compare_in_order(order, a, b));
    rows
}

// The most common order has a body of its own, since each step of a comparison counts.
fn sort_by_key(key: SortKey, rows: Vec<Row>) -> Vec<Row>
    ensures { result.items ≡ ordered (key ∷ []) rows.items }
{
    if key.descending {
        return sort_by_keys(&[key], rows);
    }
    sort_ascending(key, rows)
}

fn sort_ascending(key: SortKey, rows: Vec<Row>) -> Vec<Row>
    requires { key.descending ≡ false }
    ensures { result.items ≡ ordered (key ∷ []) rows.items }
{
    let mut rows = rows;
    let place = key.column;
    rows.sort_unstable_by(|a: &Row, b: &Row| compare_ascending(place, a, b));
    rows
}

#[inline(always)]
fn compare_ascending(place: u16, a: &Row, b: &Row) -> Ordering
    ensures { result ≡ ordering_then (value_cmp (column a.now place) (column b.now place)) (row_cmp a.now b.now) }
{
    let found = compare_at(place, a, b);
    if found.is_ne() {
        return found;
    }
    compare_whole(a, b)
}

#[inline(never)]
fn compare_whole(a: &Row, b: &Row) -> Ordering
    ensures { result ≡ row_cmp a.now b.now }
{
    compare_rows(a, b)
}

fn compare_in_order(order: &[SortKey], a: &Row, b: &Row) -> Ordering
    ensures { result ≡ order_cmp order.now a.now b.now }
{
    for key in order {
        let found = compare_by(*key, a, b);
        if found.is_ne() {
            return found;
        }
    }
    compare_rows(a, b)
}

#[inline]
fn compare_by(key: SortKey, a: &Row, b: &Row) -> Ordering
    ensures { result ≡ key_cmp key a.now b.now }
{
    if key.descending {
        compare_at(key.column, b, a)
    } else {
        compare_at(key.column, a, b)
    }
}

// In value order by the column at a place. It is NULL past the end, where no column of a plan is.
#[inline(always)]
fn compare_at(place: u16, a: &Row, b: &Row) -> Ordering
    ensures { result ≡ value_cmp (column a.now place) (column b.now place) }
{
    match (
        a.as_slice().get(place as usize),
        b.as_slice().get(place as usize),
    ) {
        (Some(Value::Int(a)), Some(Value::Int(b))) => a.cmp(b),
        _ => compare_any(place, a, b),
    }
}

#[inline(never)]
fn compare_any(place: u16, a: &Row, b: &Row) -> Ordering
    ensures { result ≡ value_cmp (column a.now place) (column b.now place) }
{
    match (
        a.as_slice().get(place as usize),
        b.as_slice().get(place as usize),
    ) {
        (Some(a), Some(b)) => compare_values(a, b),
        (Some(a), None) => compare_values(a, &Value::Null),
        (None, Some(b)) => compare_values(&Value::Null, b),
        (None, None) => Ordering::Equal,
    }
}
