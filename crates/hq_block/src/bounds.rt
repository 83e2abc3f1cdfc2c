//! The bounds of a block's columns: their least and greatest values.
ghost use Rattle.std.specs.Prelude.{◌≡◌, ◌≤◌, ◌*◌, ◌++◌, ℕ, List, All, length, nat_eq, not, IfOk, IfSome, OnOk};
ghost use Rattle.std.specs.List.{list_any};
ghost use Rattle.std.specs.Cmp.Lexicographic.{pointwise};
ghost use Rattle.hq_value.specs.declared.value.Value.{Value as Datum};
ghost use Rattle.hq_value.specs.Kinds.{IsOfKind, Fits};
ghost use Rattle.hq_block.specs.Block.{bounds_in};
ghost use Rattle.hq_block.specs.Bounds as exact;
ghost use Rattle.hq_block.specs.Extents.{extent_bounds};
ghost use Rattle.hq_block.specs.Reading.{Gives, bound_at, range_at, bounds_at, all_bounds_at};

use crate::fault::Misread;
use crate::fields::value_at;
use crate::put::{put_bytes, put_value};
use crate::row_list::RowList;
use hq_value::{Kind, NoMemory, Row, Sequence, Value, compare_values};
use std::alloc::Global;

/// The bounds of a column of a block. A column of texts has none; one without a value but NULL is empty.
#[derive(Debug, Drop)]
pub enum Bounds {
    Text,
    Empty,
    Range { least: Value, greatest: Value },
}

fn lesser(a: Value, b: &Value) -> Result<Value, NoMemory>
    ensures { IfOk result (λ value. value ≡ exact.lesser a b.now) }
{
    if compare_values(&a, b).is_gt() {
        return b.copy();
    }
    Ok(a)
}

fn greater(a: Value, b: &Value) -> Result<Value, NoMemory>
    ensures { IfOk result (λ value. value ≡ exact.greater a b.now) }
{
    if compare_values(&a, b).is_lt() {
        return b.copy();
    }
    Ok(a)
}

fn is_null(value: &Value) -> bool
    ensures { result ≡ exact.is_null value.now }
{
    matches!(value, Value::Null)
}

fn with_some(bounds: Bounds, value: &Value) -> Result<Bounds, NoMemory>
    ensures { IfOk result (λ wider. wider ≡ exact.with_some bounds value.now) }
{
    match bounds {
        Bounds::Text => Ok(Bounds::Text),
        Bounds::Empty => {
            let least = value.copy()?;
            let greatest = value.copy()?;
            Ok(Bounds::Range { least, greatest })
        }
        Bounds::Range { least, greatest } => {
            let least = lesser(least, value)?;
            let greatest = greater(greatest, value)?;
            Ok(Bounds::Range { least, greatest })
        }
    }
}

fn with_value(bounds: Bounds, value: &Value) -> Result<Bounds, NoMemory>
    ensures { IfOk result (λ wider. wider ≡ exact.with_value bounds value.now) }
{
    if is_null(value) {
        return Ok(bounds);
    }
    with_some(bounds, value)
}

fn with_row(bounds: Bounds, row: &Row, place: usize) -> Result<Bounds, NoMemory>
    ensures { IfOk result (λ wider. wider ≡ exact.with_value bounds (exact.value_at row.now place)) }
{
    match row.as_slice().get(place) {
        Some(value) => with_value(bounds, value),
        None => Ok(bounds),
    }
}

// The least and the greatest of a column of integers so far.
#[derive(Clone, Copy)]
enum Extent {
    Empty,
    Ints { least: i64, greatest: i64 },
}

fn wider(extent: Extent, n: i64) -> Extent
    ensures { extent_bounds result ≡ exact.with_some (extent_bounds extent) (Value.Int n) }
{
    match extent {
        Extent::Empty => Extent::Ints {
            least: n,
            greatest: n,
        },
        Extent::Ints { least, greatest } => Extent::Ints {
            least: if least.cmp(&n).is_gt() { n } else { least },
            greatest: if greatest.cmp(&n).is_lt() {
                n
            } else {
                greatest
            },
        },
    }
}

// None where the row's value is no integer.
fn with_int(extent: Extent, row: &Row, place: usize) -> Option<Extent>
    ensures { IfSome result (λ wider. extent_bounds wider ≡ exact.with_value (extent_bounds extent) (exact.value_at row.now place)) }
{
    match row.as_slice().get(place) {
        Some(Value::Int(n)) => Some(wider(extent, *n)),
        Some(Value::Null) | None => Some(extent),
        Some(_) => None,
    }
}

// The extent of a column of integers; None where it has other values.
fn ints_in(place: usize, rows: &RowList) -> Option<Extent>
    ensures { IfSome result (λ extent. extent_bounds extent ≡ exact.range_of place rows.now) }
{
    let mut extent = Extent::Empty;
    for i in 0..rows.len() {
        extent = with_int(extent, rows.get(i), place)?;
    }
    Some(extent)
}

fn bounds_of(extent: Extent) -> Bounds
    ensures { result ≡ extent_bounds extent }
{
    match extent {
        Extent::Empty => Bounds::Empty,
        Extent::Ints { least, greatest } => Bounds::Range {
            least: Value::Int(least),
            greatest: Value::Int(greatest),
        },
    }
}

fn range_of(place: usize, rows: &RowList) -> Result<Bounds, NoMemory>
    ensures { IfOk result (λ bounds. bounds ≡ exact.range_of place rows.now) }
{
    match ints_in(place, rows) {
        Some(extent) => Ok(bounds_of(extent)),
        None => range_of_any(place, rows),
    }
}

fn range_of_any(place: usize, rows: &RowList) -> Result<Bounds, NoMemory>
    ensures { IfOk result (λ bounds. bounds ≡ exact.range_of place rows.now) }
{
    let mut bounds = Bounds::Empty;
    for i in 0..rows.len() {
        bounds = with_row(bounds, rows.get(i), place)?;
    }
    Ok(bounds)
}

fn column_bounds(kind: Kind, place: usize, rows: &RowList) -> Result<Bounds, NoMemory>
    ensures { IfOk result (λ bounds. bounds ≡ exact.column_bounds kind place rows.now) }
{
    match kind {
        Kind::Text => Ok(Bounds::Text),
        Kind::Bool | Kind::Int => range_of(place, rows),
    }
}

// Whether the column has a value but NULL.
fn has_value(place: usize, rows: &RowList) -> bool
    ensures { result ≡ exact.has_value place rows.now }
{
    for i in 0..rows.len() {
        if is_some_at(rows.get(i), place) {
            return true;
        }
    }
    false
}

fn is_some_at(row: &Row, place: usize) -> bool
    ensures { result ≡ not (exact.is_null (exact.value_at row.now place)) }
{
    match row.as_slice().get(place) {
        Some(value) => !is_null(value),
        None => false,
    }
}

fn bound_size(kind: Kind, some: bool) -> usize
    ensures size { result ≡ exact.bound_size kind some }
    ensures short { result ≤ 17 }
{
    match (kind, some) {
        (Kind::Bool, true) => 3,
        (Kind::Int, true) => 17,
        _ => 1,
    }
}

fn bound_length(kind: Kind, place: usize, rows: &RowList) -> usize
    requires { All (λ row. IsOfKind kind (exact.value_at row place)) rows.now }
    ensures length { result ≡ length (exact.bound_bytes (exact.column_bounds kind place rows.now)) }
    ensures short { result ≤ 17 }
{
    bound_size(kind, has_value(place, rows))
}

/// How many bytes the bounds of the rows' columns take: at most 17 a column.
pub(crate) fn bounds_length(kinds: &[Kind], rows: &RowList) -> usize
    requires few { length kinds.now ≤ 64 }
    requires fit { All (Fits kinds.now) rows.now }
    ensures length { result ≡ length (exact.bounds_bytes (exact.bounds_of kinds.now rows.now)) }
    ensures short { result ≤ 1088 }
{
    let mut total = 0;
    for (place, kind) in kinds.iter().enumerate() {
        total += bound_length(*kind, place, rows);
    }
    total
}

fn put_bound(out: &mut Vec<u8>, bounds: &Bounds) -> Result<(), NoMemory>
    ensures { OnOk result (out.new.items ≡ out.old.items ++ exact.bound_bytes bounds.now) }
{
    match bounds {
        Bounds::Text => put_bytes(out, &[2]),
        Bounds::Empty => put_bytes(out, &[0]),
        Bounds::Range { least, greatest } => {
            put_bytes(out, &[1])?;
            put_value(out, least)?;
            put_value(out, greatest)
        }
    }
}

/// Adds the bounds of each column of the rows.
pub(crate) fn put_bounds(out: &mut Vec<u8>, kinds: &[Kind], rows: &RowList) -> Result<(), NoMemory>
    ensures { OnOk result (out.new.items ≡ out.old.items ++ exact.bounds_bytes (exact.bounds_of kinds.now rows.now)) }
{
    for (place, kind) in kinds.iter().enumerate() {
        let bounds = column_bounds(*kind, place, rows)?;
        put_bound(out, &bounds)?;
    }
    Ok(())
}

/// Whether these bytes are the bounds that a block of this version has for the rows.
pub(crate) fn bounds_are(
    alloc: Global,
    version: u8,
    kinds: &[Kind],
    rows: &[Row],
    bytes: &[u8],
) -> Result<bool, NoMemory>
    ensures { IfOk result (λ are. are ≡ pointwise nat_eq (bounds_in version kinds.now rows.now) bytes.now) }
{
    let mut expected = Vec::new(alloc);
    if version == 2 {
        put_bounds(&mut expected, kinds, &RowList::all(rows))?;
    }
    Ok(expected.as_slice() == bytes)
}

#[tactic(auto, unfolding(crate::specs::Reading::bound_at))]
fn bound_at(alloc: Global, kind: Kind, bytes: &[u8]) -> Result<(Bounds, &[u8]), Misread>
    ensures { Gives (λ x. (x.0, x.1.now)) result (bound_at kind bytes.now) }
{
    match (kind, bytes) {
        (Kind::Text, [2, rest @ ..]) => Ok((Bounds::Text, rest)),
        (Kind::Text, _) => Err(Misread::Absent),
        (_, [0, rest @ ..]) => Ok((Bounds::Empty, rest)),
        (_, [1, rest @ ..]) => range_at(alloc, kind, rest),
        _ => Err(Misread::Absent),
    }
}

#[tactic(auto, unfolding(crate::specs::Reading::range_at))]
fn range_at(alloc: Global, kind: Kind, bytes: &[u8]) -> Result<(Bounds, &[u8]), Misread>
    ensures { Gives (λ x. (x.0, x.1.now)) result (range_at kind bytes.now) }
{
    let (least, rest) = value_at(alloc, kind, bytes)?;
    let (greatest, rest) = value_at(alloc, kind, rest)?;
    if compare_values(&least, &greatest).is_gt() {
        return Err(Misread::Absent);
    }
    Ok((Bounds::Range { least, greatest }, rest))
}

/// The bounds of each column, of just these bytes.
#[tactic(auto, unfolding(crate::specs::Reading::all_bounds_at))]
pub(crate) fn all_bounds_at(
    alloc: Global,
    kinds: &[Kind],
    bytes: &[u8],
) -> Result<Sequence<Bounds>, Misread>
    ensures { Gives (λ x. x) result (all_bounds_at kinds.now bytes.now) }
{
    let (bounds, rest) = bounds_at(alloc, kinds, bytes)?;
    if !rest.is_empty() {
        return Err(Misread::Absent);
    }
    Ok(bounds)
}

fn bounds_at<'a>(
    alloc: Global,
    kinds: &[Kind],
    bytes: &'a [u8],
) -> Result<(Sequence<Bounds>, &'a [u8]), Misread>
    ensures { Gives (λ x. (x.0, x.1.now)) result (bounds_at kinds.now bytes.now) }
{
    let mut bounds = Vec::with_capacity(alloc, kinds.len())?;
    let mut rest = bytes;
    for kind in kinds {
        let (first, after) = bound_at(alloc, *kind, rest)?;
        bounds.push(first)?;
        rest = after;
    }
    Ok((Sequence::from_vec(bounds), rest))
}
