//! The kinds of the columns that an operator gives.
ghost use Rattle.std.specs.Prelude.{◌≡◌, ◌≤◌, ◌++◌, IsSome, IsTrue, IfOk, OnOk, Some, length, slice_get};
ghost use Rattle.std.specs.List.{list_all};
ghost use Rattle.hq_algebra.specs.Operators as spec;
ghost use Rattle.hq_algebra.specs.Kinds.{layout, partial_columns};
ghost use Rattle.hq_algebra.specs.Found.{Gives};
ghost use Rattle.hq_algebra.specs.Rules.{are_within};

use crate::kinds::{aggregate_kind, are_same, expr_kind};
use crate::misfit::Misfit;
use crate::{Aggregate, Expr, Op, SortKey};
use hq_value::{Kind, Kinds, NoMemory, Sequence};
use std::alloc::Global;

/// The output kinds of an operator whose columns and kinds fit. The call is nested at most as deep as the
/// operator.
pub fn kinds_of(alloc: Global, op: &Op) -> Result<Kinds, NoMemory>
    requires { IsSome (spec.op_kinds op.now) }
    ensures { IfOk result (λ kinds. spec.op_kinds op.now ≡ Some kinds) }
{
    match checked_kinds(alloc, op) {
        Ok(kinds) => Ok(kinds),
        Err(Misfit::NoMemory) => Err(NoMemory),
        Err(Misfit::Wrong) => unreachable!(),
    }
}

/// The output kinds of an operator. Wrong exactly where a column is out of range or a kind does not fit. The call
/// is nested at most as deep as the operator.
pub fn checked_kinds(alloc: Global, op: &Op) -> Result<Kinds, Misfit>
    ensures { Gives result (spec.op_kinds op.now) }
{
    match op {
        Op::Scan { kinds, .. } => copied(alloc, kinds.as_slice()),
        Op::Receive { kinds, .. } => copied(alloc, kinds.as_slice()),
        Op::Filter { cond, input } => filtered(cond, checked_kinds(alloc, input.get())?),
        Op::Project { items, input } => {
            let kinds = checked_kinds(alloc, input.get())?;
            items_kinds(alloc, kinds.as_slice(), items.as_slice())
        }
        Op::Join {
            left_keys,
            right_keys,
            left,
            right,
        } => {
            let left = checked_kinds(alloc, left.get())?;
            let right = checked_kinds(alloc, right.get())?;
            joined(
                alloc,
                left_keys.as_slice(),
                right_keys.as_slice(),
                left,
                right,
            )
        }
        Op::Partial {
            keys,
            aggregates,
            input,
        } => {
            let kinds = checked_kinds(alloc, input.get())?;
            partial_kinds(
                alloc,
                keys.as_slice(),
                aggregates.as_slice(),
                kinds.as_slice(),
            )
        }
        Op::Final {
            keys,
            aggregates,
            input,
        } => {
            let kinds = checked_kinds(alloc, input.get())?;
            finished(
                alloc,
                *keys as usize,
                aggregates.as_slice(),
                kinds.as_slice(),
            )
        }
        Op::Distinct(input) => checked_kinds(alloc, input.get()),
        Op::Sort { order, input, .. } => sorted(
            order.as_slice(),
            checked_kinds(alloc, input.get())?,
        ),
    }
}

fn filtered(cond: &Expr, kinds: Kinds) -> Result<Kinds, Misfit>
    ensures { Gives result (spec.filter_kinds cond.now kinds) }
{
    if !expr_kind(kinds.as_slice(), cond).is_of(Kind::Bool) {
        return Err(Misfit::Wrong);
    }
    Ok(kinds)
}

fn sorted(order: &[SortKey], kinds: Kinds) -> Result<Kinds, Misfit>
    ensures { Gives result (spec.sort_kinds order.now kinds) }
{
    if !are_within(order, kinds.len()) {
        return Err(Misfit::Wrong);
    }
    Ok(kinds)
}

fn are_within(order: &[SortKey], columns: usize) -> bool
    ensures { result ≡ are_within order.now columns }
{
    order.iter().all(|key| (key.column as usize) < columns)
}

// The left columns, and then the right ones.
fn joined(
    alloc: Global,
    left_keys: &[u16],
    right_keys: &[u16],
    left: Kinds,
    right: Kinds,
) -> Result<Kinds, Misfit>
    ensures { Gives result (spec.join_kinds left_keys.now right_keys.now left right) }
{
    let left_kinds = keys_kinds(alloc, left.as_slice(), left_keys)?;
    let right_kinds = keys_kinds(alloc, right.as_slice(), right_keys)?;
    if !are_same(left_kinds.as_slice(), right_kinds.as_slice()) {
        return Err(Misfit::Wrong);
    }
    both(left, right.as_slice())
}

/// The output kinds of a Partial: the keys, and the columns of the partial aggregates. Wrong exactly where a column is
/// out of range or a kind does not fit.
pub fn partial_kinds(
    alloc: Global,
    keys: &[u16],
    aggregates: &[Aggregate],
    kinds: &[Kind],
) -> Result<Kinds, Misfit>
    ensures { Gives result (spec.partial_kinds keys.now aggregates.now kinds.now) }
{
    let keys = keys_kinds(alloc, kinds, keys)?;
    let columns = layout(alloc, kinds, aggregates)?;
    both(keys, columns.as_slice())
}

// The keys, and the values of the aggregates whose partial ones stand after the keys.
fn finished(
    alloc: Global,
    keys: usize,
    aggregates: &[Aggregate],
    kinds: &[Kind],
) -> Result<Kinds, Misfit>
    ensures { Gives result (spec.final_kinds keys aggregates.now kinds.now) }
{
    let values = values_kinds(alloc, kinds, aggregates)?;
    let columns = layout(alloc, kinds, aggregates)?;
    if !are_finals(kinds, keys, aggregates, columns.as_slice()) {
        return Err(Misfit::Wrong);
    }
    let keys = copied(alloc, &kinds[..keys])?;
    both(keys, values.as_slice())
}

// The columns after the keys are those of the partial aggregates.
fn are_finals(kinds: &[Kind], keys: usize, aggregates: &[Aggregate], columns: &[Kind]) -> bool
    ensures test { result ≡ spec.are_finals kinds.now keys aggregates.now columns.now }
    ensures within { IsTrue result → keys ≤ length kinds.now }
{
    if !all_tell_their_kind(aggregates) || keys > kinds.len() {
        return false;
    }
    are_same(columns, &kinds[keys..])
}

fn all_tell_their_kind(aggregates: &[Aggregate]) -> bool
    ensures { result ≡ list_all spec.tells_its_kind aggregates.now }
{
    aggregates.iter().all(|aggregate| tells_its_kind(aggregate))
}

fn tells_its_kind(aggregate: &Aggregate) -> bool
    ensures { result ≡ spec.tells_its_kind aggregate.now }
{
    match aggregate {
        Aggregate::Min(e) => is_column(e),
        Aggregate::Max(e) => is_column(e),
        _ => true,
    }
}

fn is_column(e: &Expr) -> bool
    ensures { result ≡ spec.is_column e.now }
{
    matches!(e, Expr::Column(_))
}

fn copied(alloc: Global, kinds: &[Kind]) -> Result<Kinds, Misfit>
    ensures { Gives result (Some kinds.now) }
{
    let copy = kinds.to_vec(alloc)?;
    Ok(Sequence::from_vec(copy))
}

fn both(kinds: Kinds, others: &[Kind]) -> Result<Kinds, Misfit>
    ensures { Gives result (Some (kinds ++ others.now)) }
{
    let mut kinds = kinds.into_vec();
    kinds.extend_from_slice(others)?;
    Ok(Sequence::from_vec(kinds))
}

fn keys_kinds(alloc: Global, kinds: &[Kind], keys: &[u16]) -> Result<Kinds, Misfit>
    ensures { Gives result (spec.keys_kinds kinds.now keys.now) }
{
    let mut found = Kinds::new(alloc);
    for key in keys {
        let Some(kind) = key_kind(kinds, *key) else {
            return Err(Misfit::Wrong);
        };
        found.push(kind)?;
    }
    Ok(found)
}

fn key_kind(kinds: &[Kind], key: u16) -> Option<Kind>
    ensures { result ≡ slice_get kinds.now key }
{
    kinds.get(key as usize).copied()
}

fn items_kinds(alloc: Global, kinds: &[Kind], items: &[Expr]) -> Result<Kinds, Misfit>
    ensures { Gives result (spec.items_kinds kinds.now items.now) }
{
    let mut found = Kinds::new(alloc);
    for item in items {
        let Some(kind) = expr_kind(kinds, item).of_item() else {
            return Err(Misfit::Wrong);
        };
        found.push(kind)?;
    }
    Ok(found)
}

fn values_kinds(alloc: Global, kinds: &[Kind], aggregates: &[Aggregate]) -> Result<Kinds, Misfit>
    ensures { Gives result (spec.values_kinds kinds.now aggregates.now) }
{
    let mut found = Kinds::new(alloc);
    for aggregate in aggregates {
        let Some(kind) = aggregate_kind(kinds, aggregate) else {
            return Err(Misfit::Wrong);
        };
        found.push(kind)?;
    }
    Ok(found)
}

// The columns of the partial aggregates.
fn layout(alloc: Global, kinds: &[Kind], aggregates: &[Aggregate]) -> Result<Kinds, Misfit>
    ensures { Gives result (layout kinds.now aggregates.now) }
{
    let mut found = Kinds::new(alloc);
    for aggregate in aggregates {
        let Some(kind) = aggregate_kind(kinds, aggregate) else {
            return Err(Misfit::Wrong);
        };
        put_columns(&mut found, aggregate, kind)?;
    }
    Ok(found)
}

// The columns of one partial aggregate: a sum is two.
fn put_columns(found: &mut Kinds, aggregate: &Aggregate, kind: Kind) -> Result<(), NoMemory>
    ensures { OnOk result (found.new ≡ found.old ++ partial_columns aggregate.now kind) }
{
    if let Aggregate::Sum(_) = aggregate {
        found.push(kind)?;
    }
    found.push(kind)
}
