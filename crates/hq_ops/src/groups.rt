//! Keys of rows.
ghost use Rattle.std.specs.Prelude.{◌≡◌, ◌==◌, IfOk, IsTrue, take};
ghost use Rattle.hq_algebra.specs.Eval.{column};
ghost use Rattle.hq_meaning.specs.Groups.{key_of};
ghost use Rattle.hq_ops.specs.Grouping.{key_by, width_by};
ghost use Rattle.hq_ops.specs.Chains.{hash_from};

use crate::chains::{hash_of, hash_of_values};
use hq_value::{NoMemory, Row, Value, compare_values};
use std::alloc::Global;

/// What makes the key of a row: the columns at these places, or so many of the first.
#[derive(Clone, Copy)]
pub enum GroupBy<'a> {
    Columns(&'a [u16]),
    First(u16),
}

/// The value at a place; NULL past the end, where no column of a plan is.
pub fn copy_column(row: &Row, place: usize) -> Result<Value, NoMemory>
    ensures { IfOk result (λ value. value ≡ column row.now place) }
{
    match row.as_slice().get(place) {
        Some(value) => value.copy(),
        None => Ok(Value::Null),
    }
}

/// The values of a row at these places.
pub fn key_row(alloc: Global, places: &[u16], row: &Row) -> Result<Row, NoMemory>
    ensures { IfOk result (λ key. key ≡ key_of places.now row.now) }
{
    let mut values = Row::with_capacity(alloc, places.len())?;
    for place in places {
        values.push(copy_column(row, *place as usize)?)?;
    }
    Ok(values)
}

// The first values of a row.
fn first_values(alloc: Global, count: u16, row: &Row) -> Result<Row, NoMemory>
    ensures { IfOk result (λ key. key ≡ take count row.now) }
{
    let values = row.as_slice();
    let count = values.len().min(count as usize);
    let mut key = Row::with_capacity(alloc, count)?;
    for value in &values[..count] {
        key.push(value.copy()?)?;
    }
    Ok(key)
}

// So many of a row's first values, or all.
fn first_of(count: u16, row: &Row) -> &[Value]
    ensures { result.now ≡ take count row.now }
{
    let values = row.as_slice();
    &values[..values.len().min(count as usize)]
}

// The values of a key are those of a row at these places.
fn are_columns(places: &[u16], key: &[Value], row: &[Value]) -> bool
    ensures { IsTrue result → key.now ≡ key_of places.now row.now }
{
    match places {
        [] => key.is_empty(),
        [place, places @ ..] => match key {
            [] => false,
            [value, key @ ..] => {
                if !is_column(value, row, *place) {
                    return false;
                }
                are_columns(places, key, row)
            }
        },
    }
}

#[inline]
fn is_column(value: &Value, row: &[Value], place: u16) -> bool
    ensures { IsTrue result → value.now ≡ column row.now place }
{
    match row.get(place as usize) {
        Some(other) => is_same(value, other),
        None => false,
    }
}

#[inline]
#[tactic(auto, using(crate::proofs::Guessing::tie_same))]
fn is_same(a: &Value, b: &Value) -> bool
    ensures { IsTrue result → a.now ≡ b.now }
{
    match (a, b) {
        (Value::Int(a), Value::Int(b)) => *a == *b,
        _ => compare_values(a, b).is_eq(),
    }
}

impl GroupBy<'_> {
    /// The key of a row.
    pub fn key(&self, alloc: Global, row: &Row) -> Result<Row, NoMemory>
        ensures { IfOk result (λ key. key ≡ key_by self.now row.now) }
    {
        match self {
            GroupBy::Columns(places) => key_row(alloc, places, row),
            GroupBy::First(count) => first_values(alloc, *count, row),
        }
    }

    /// The hash of a row's key.
    #[inline]
    pub fn hash(&self, row: &Row) -> u64
        ensures { result ≡ hash_from 0 (key_by self.now row.now) }
    {
        match self {
            GroupBy::Columns(places) => hash_of(0, places, row),
            GroupBy::First(count) => hash_of_values(0, first_of(*count, row)),
        }
    }

    /// A row is found to have a key.
    #[inline]
    #[tactic(auto, using(crate::proofs::Guessing::alike_same))]
    pub fn is_key(&self, key: &Row, row: &Row) -> bool
        ensures { IsTrue result → key.now ≡ key_by self.now row.now }
    {
        match self {
            GroupBy::Columns(places) => are_columns(places, key.as_slice(), row.as_slice()),
            GroupBy::First(count) => key.as_slice() == first_of(*count, row),
        }
    }

    /// The keys have no column.
    pub fn is_empty(&self) -> bool
        ensures { result ≡ (width_by self.now == 0) }
    {
        match self {
            GroupBy::Columns(places) => places.is_empty(),
            GroupBy::First(count) => *count == 0,
        }
    }
}
