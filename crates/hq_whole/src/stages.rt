//! The operators of a plan behind its sources.
ghost use Rattle.std.specs.Prelude.{◌≡◌, ◌≤◌, ◌+◌, ◌*◌, IfOk, length, IsTrue};
ghost use Rattle.hq_laws.specs.Stages as spec;
ghost use Rattle.hq_listing.specs.Listing as listing;
ghost use Rattle.hq_meaning.specs.Operators as operators;
ghost use Rattle.hq_algebra.specs.Bound.{has_places};

use crate::making::filter;
use hq_algebra::{
    Aggregate, Aggregates, Expr, Motion, Op, Query, Slice, copy_aggregates, copy_exprs, copy_keys,
    copy_order,
};
use hq_value::NoMemory;
use sqlite_items::Boxed;
use std::alloc::Global;

pub fn sending(out: Motion, root: Op) -> Slice
    ensures { result ≡ spec.sending out root }
{
    Slice { out, root }
}

/// A Filter for each condition, the first one lowest.
pub fn filters(alloc: Global, conds: &[Expr], input: Op) -> Result<Op, NoMemory>
    ensures { IfOk result (λ op. op ≡ spec.filters conds.now input) }
{
    let mut op = input;
    for cond in conds {
        op = filtered(alloc, cond, op)?;
    }
    Ok(op)
}

fn filtered(alloc: Global, cond: &Expr, input: Op) -> Result<Op, NoMemory>
    ensures { IfOk result (λ op. op ≡ Op.Filter cond.now input) }
{
    let cond = cond.copy(alloc)?;
    filter(alloc, cond, input)
}

/// The Partial, where the query is grouped.
pub fn partial_op(alloc: Global, query: &Query, input: Op) -> Result<Op, NoMemory>
    ensures { IfOk result (λ op. op ≡ spec.partial_op query.now input) }
{
    if !query.grouped {
        return Ok(input);
    }
    partial(alloc, query, input)
}

fn partial(alloc: Global, query: &Query, input: Op) -> Result<Op, NoMemory>
    ensures { IfOk result (λ op. op ≡ Op.Partial query.now.groups query.now.aggregates input) }
{
    let input = Boxed::new(alloc, input)?;
    let keys = copy_keys(alloc, query.groups.as_slice())?;
    let aggregates = copy_aggregates(alloc, query.aggregates.as_slice())?;
    Ok(Op::Partial {
        keys,
        aggregates,
        input,
    })
}

/// The Final, where the query is grouped.
pub fn final_op(alloc: Global, query: &Query, input: Op) -> Result<Op, NoMemory>
    requires { IsTrue (has_places query.now) }
    ensures { IfOk result (λ op. op ≡ spec.final_op query.now input) }
{
    if !query.grouped {
        return Ok(input);
    }
    merged(alloc, query, query.groups.len() as u16, input)
}

fn merged(alloc: Global, query: &Query, keys: u16, input: Op) -> Result<Op, NoMemory>
    requires keys { keys ≡ length query.now.groups }
    requires places { IsTrue (has_places query.now) }
    ensures { IfOk result (λ op. op ≡ Op.Final (length query.now.groups) (spec.final_aggregates (length query.now.groups) query.now.aggregates) input) }
{
    let input = Boxed::new(alloc, input)?;
    let aggregates = final_aggregates(alloc, keys, query.aggregates.as_slice())?;
    Ok(Op::Final {
        keys,
        aggregates,
        input,
    })
}

// The aggregates of a Final, each over the first column of its partial one.
fn final_aggregates(
    alloc: Global,
    at: u16,
    aggregates: &[Aggregate],
) -> Result<Aggregates, NoMemory>
    requires { at + (length aggregates.now + length aggregates.now) ≤ 65535 }
    ensures { IfOk result (λ finals. finals ≡ spec.final_aggregates at aggregates.now) }
{
    let mut finals = Aggregates::new(alloc);
    let mut place = at;
    for aggregate in aggregates {
        finals.push(final_aggregate(place, aggregate))?;
        place += width(aggregate);
    }
    Ok(finals)
}

fn final_aggregate(at: u16, aggregate: &Aggregate) -> Aggregate
    ensures { result ≡ spec.final_aggregate at aggregate.now }
{
    match aggregate {
        Aggregate::CountAll => Aggregate::CountAll,
        Aggregate::Count(_) => Aggregate::Count(Expr::Column(at)),
        Aggregate::Sum(_) => Aggregate::Sum(Expr::Column(at)),
        Aggregate::Min(_) => Aggregate::Min(Expr::Column(at)),
        Aggregate::Max(_) => Aggregate::Max(Expr::Column(at)),
    }
}

fn width(aggregate: &Aggregate) -> u16
    ensures { result ≡ operators.width aggregate.now }
{
    match aggregate {
        Aggregate::Sum(_) => 2,
        _ => 1,
    }
}

fn distinct_op(alloc: Global, query: &Query, input: Op) -> Result<Op, NoMemory>
    ensures { IfOk result (λ op. op ≡ spec.distinct_op query.now input) }
{
    if !query.distinct {
        return Ok(input);
    }
    Ok(Op::Distinct(Boxed::new(alloc, input)?))
}

/// The select list.
pub fn listed_op(alloc: Global, query: &Query, input: Op) -> Result<Op, NoMemory>
    ensures { IfOk result (λ op. op ≡ Op.Project query.now.items input) }
{
    let input = Boxed::new(alloc, input)?;
    let items = copy_exprs(alloc, query.items.as_slice())?;
    Ok(Op::Project { items, input })
}

/// DISTINCT, the order and LIMIT.
pub fn end_op(alloc: Global, query: &Query, input: Op) -> Result<Op, NoMemory>
    ensures { IfOk result (λ op. op ≡ listing.end_op query.now input) }
{
    let input = distinct_op(alloc, query, input)?;
    sorted(alloc, query, input)
}

fn sorted(alloc: Global, query: &Query, input: Op) -> Result<Op, NoMemory>
    ensures { IfOk result (λ op. op ≡ Op.Sort query.now.order query.now.limit input) }
{
    let input = Boxed::new(alloc, input)?;
    let order = copy_order(alloc, query.order.as_slice())?;
    Ok(Op::Sort {
        order,
        limit: query.limit,
        input,
    })
}

/// HAVING, the select list, DISTINCT, the order and LIMIT.
pub fn tail_op(alloc: Global, query: &Query, input: Op) -> Result<Op, NoMemory>
    ensures { IfOk result (λ op. op ≡ spec.tail_op query.now input) }
{
    let kept = filters(alloc, query.having.as_slice(), input)?;
    let listed = listed_op(alloc, query, kept)?;
    end_op(alloc, query, listed)
}
