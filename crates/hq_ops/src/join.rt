//! Pairs of rows whose keys are equal.
ghost use Rattle.std.specs.Prelude.{◌≡◌, ◌<◌, ◌++◌, ◌∷◌, [], IfOk, OnOk, List, ℕ, length, map, false};
ghost use Rattle.std.specs.Option.{option_map_or};
ghost use Rattle.hq_algebra.specs.Eval.{column};
ghost use Rattle.hq_meaning.specs.Operators.{joined, beside, matches, meets};
ghost use Rattle.hq_value.specs.declared.value.Value.TheVariants as Datum;
ghost use Rattle.hq_ops.specs.Chains.{Linked, row_at, begins_at};
ghost use Rattle.hq_ops.specs.Ends.{Gives, IsNumericAt};

use crate::OpEnd;
use crate::chains::Chains;
use hq_algebra::Keys16;
use hq_value::{NoMemory, Row, Value, compare_values};
use std::alloc::Global;

/// The pairs whose keys are all equal and not NULL, by left row and then by right row. The left columns come first.
/// Without keys all pairs.
pub fn join_rows(
    alloc: Global,
    left: &[Row],
    right: &[Row],
    left_keys: &Keys16,
    right_keys: &Keys16,
) -> OpEnd
    ensures rows { Gives result (joined left_keys.now right_keys.now left.now right.now) }
    ensures numeric { IsNumericAt result false }
{
    match join(
        alloc,
        left,
        right,
        left_keys.as_slice(),
        right_keys.as_slice(),
    ) {
        Ok(rows) => OpEnd::Rows(rows),
        Err(_) => OpEnd::NoMemory,
    }
}

fn join(
    alloc: Global,
    left: &[Row],
    right: &[Row],
    left_keys: &[u16],
    right_keys: &[u16],
) -> Result<Vec<Row>, NoMemory>
    ensures { IfOk result (λ found. found.items ≡ joined left_keys.now right_keys.now left.now right.now) }
{
    let chains = Chains::new(alloc, right_keys, right)?;
    join_chains(alloc, left, left_keys, &chains)
}

/// The pairs of left rows, where the right rows are chained by their keys.
pub fn join_chains(
    alloc: Global,
    left: &[Row],
    keys: &[u16],
    right: &Chains,
) -> Result<Vec<Row>, NoMemory>
    ensures { IfOk result (λ found. found.items ≡ joined keys.now right.now.keys.now left.now right.now.rows.now) }
{
    let firsts = first_places(alloc, left, keys, right)?;
    let mut found = Vec::with_capacity(alloc, left.len())?;
    for (index, row) in left.iter().enumerate() {
        push_pairs(alloc, row, keys, right, firsts[index], &mut found)?;
    }
    Ok(found)
}

// Where the chain of each left row begins. All are looked up before any is walked, so that the processor waits for the
// memory of many at once.
fn first_places(
    alloc: Global,
    left: &[Row],
    keys: &[u16],
    right: &Chains,
) -> Result<Vec<usize>, NoMemory>
    ensures { IfOk result (λ firsts. firsts.items ≡ map (begins_at keys.now right.now.first.items) left.now) }
{
    let mut firsts = Vec::with_capacity(alloc, left.len())?;
    for row in left {
        firsts.push(right.first_of(keys, row))?;
    }
    Ok(firsts)
}

// The pairs of one left row, whose chain begins at a place.
fn push_pairs(
    alloc: Global,
    left: &Row,
    keys: &[u16],
    right: &Chains,
    first: usize,
    found: &mut Vec<Row>,
) -> Result<(), NoMemory>
    requires { first ≡ begins_at keys.now right.now.first.items left.now }
    ensures { OnOk result (found.new.items ≡ found.old.items ++ beside keys.now right.now.keys.now right.now.rows.now left.now) }
{
    push_chain(alloc, left, keys, right, first, found)
}

// The pairs of one left row and the rows of a chain from a place on.
fn push_chain(
    alloc: Global,
    left: &Row,
    keys: &[u16],
    right: &Chains,
    first: usize,
    found: &mut Vec<Row>,
) -> Result<(), NoMemory>
    ensures { (places : List ℕ) → Linked right.now.next.items first places →
        OnOk result (found.new.items ≡ found.old.items ++ beside keys.now right.now.keys.now (map (row_at right.now.rows.now) places) left.now) }
{
    let mut place = first;
    'chain: while place < right.rows.len() {
        let row = &right.rows[place];
        place = right.after(place);
        push_match(alloc, left, keys, right.keys, row, found)?;
    }
    Ok(())
}

// The pair of two rows, if they match.
#[inline]
fn push_match(
    alloc: Global,
    left: &Row,
    left_keys: &[u16],
    right_keys: &[u16],
    right: &Row,
    found: &mut Vec<Row>,
) -> Result<(), NoMemory>
    ensures { OnOk result (found.new.items ≡ found.old.items ++ beside left_keys.now right_keys.now (right.now ∷ []) left.now) }
{
    if is_match(left_keys, right_keys, left, right) {
        found.push(pair(alloc, left, right)?)?;
    }
    Ok(())
}

// Keys match where they are equal in pairs and none is NULL. One key is the most common case.
#[inline]
fn is_match(left_keys: &[u16], right_keys: &[u16], left: &Row, right: &Row) -> bool
    ensures { result ≡ matches left_keys.now right_keys.now left.now right.now }
{
    match (left_keys, right_keys) {
        ([l], [r]) => are_equal(value_at(left, *l), value_at(right, *r)),
        _ => are_equal_in_pairs(left_keys, right_keys, left, right),
    }
}

fn are_equal_in_pairs(left_keys: &[u16], right_keys: &[u16], left: &Row, right: &Row) -> bool
    ensures { result ≡ matches left_keys.now right_keys.now left.now right.now }
{
    match left_keys {
        [] => right_keys.is_empty(),
        [l, ls @ ..] => match right_keys {
            [] => false,
            [r, rs @ ..] => {
                if !are_equal(value_at(left, *l), value_at(right, *r)) {
                    return false;
                }
                are_equal_in_pairs(ls, rs, left, right)
            }
        },
    }
}

// The value at a place, none where it is past the end, where no column of a plan is.
#[inline]
fn value_at(row: &Row, place: u16) -> Option<&Value>
    ensures { option_map_or (λ value. value.now) result Datum.Null ≡ column row.now place }
{
    row.as_slice().get(place as usize)
}

// Whether two values are equal and none is NULL.
#[inline]
fn are_equal(a: Option<&Value>, b: Option<&Value>) -> bool
    ensures { result ≡ meets (option_map_or (λ value. value.now) a.entry Datum.Null) (option_map_or (λ value. value.now) b.entry Datum.Null) }
{
    match (a, b) {
        (Some(Value::Int(a)), Some(Value::Int(b))) => *a == *b,
        (Some(Value::Null), _) => false,
        (Some(a), Some(b)) => compare_values(a, b).is_eq(),
        _ => false,
    }
}

fn pair(alloc: Global, left: &Row, right: &Row) -> Result<Row, NoMemory>
    ensures { IfOk result (λ row. row ≡ left.now ++ right.now) }
{
    let left = left.as_slice();
    let right = right.as_slice();
    let count = left.len().saturating_add(right.len());
    if count <= 3 {
        return short_pair(alloc, left, right);
    }
    let mut values = Vec::with_capacity(alloc, count)?;
    add_copies(left, &mut values)?;
    add_copies(right, &mut values)?;
    Ok(Row::from_vec(alloc, values))
}

// A row of few values takes no memory of its own.
fn short_pair(alloc: Global, left: &[Value], right: &[Value]) -> Result<Row, NoMemory>
    ensures { IfOk result (λ row. row ≡ left.now ++ right.now) }
{
    let mut row = Row::new(alloc);
    push_copies(left, &mut row)?;
    push_copies(right, &mut row)?;
    Ok(row)
}

fn push_copies(values: &[Value], row: &mut Row) -> Result<(), NoMemory>
    ensures { OnOk result (row.new ≡ row.old ++ values.now) }
{
    for value in values {
        row.push(value.copy()?)?;
    }
    Ok(())
}

#[inline]
fn add_copies(values: &[Value], row: &mut Vec<Value>) -> Result<(), NoMemory>
    ensures { OnOk result (row.new.items ≡ row.old.items ++ values.now) }
{
    for value in values {
        row.push(value.copy()?)?;
    }
    Ok(())
}
