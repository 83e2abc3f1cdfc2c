//! Operators read.
ghost use Rattle.std.specs.Prelude.{Some};
ghost use Rattle.std.specs.Int.{w16, w32};
ghost use Rattle.hq_planwire.specs.Reading as spec;
ghost use Rattle.hq_planwire.specs.Reading.{Gives, both_at, made_at, number_at};

use crate::PlanFault;
use crate::fields::{bool_at, byte_at, u16_at, u32_at, u64_at};
use crate::lists::{Member, list_at};
use hq_algebra::{Aggregates, Expr, Exprs, Keys16, Op, SortKey, SortKeys};
use sqlite_items::Boxed;
use std::alloc::Global;

impl Member for SortKey {
    ghost use Rattle.hq_planwire.specs.Reading.{sort_key_at};

    ghost reader = { sort_key_at };

    fn read(_alloc: Global, bytes: &[u8]) -> Result<(SortKey, &[u8]), PlanFault> {
        let (column, rest) = u16_at(bytes)?;
        let (descending, rest) = bool_at(rest)?;
        Ok((SortKey { column, descending }, rest))
    }
}

fn limit_of(tag: u8, bytes: &[u8]) -> Result<(Option<u64>, &[u8]), PlanFault>
    ensures { Gives (λ x. (x.0, x.1.now)) result (spec.limit_of tag bytes.now) }
{
    match tag {
        0 => Ok((None, bytes)),
        1 => {
            let (limit, rest) = u64_at(bytes)?;
            Ok((Some(limit), rest))
        }
        _ => Err(PlanFault::NotAPlan),
    }
}

#[tactic(auto, unfolding(crate::specs::Reading::limit_at))]
fn limit_at(bytes: &[u8]) -> Result<(Option<u64>, &[u8]), PlanFault>
    ensures { Gives (λ x. (x.0, x.1.now)) result (spec.limit_at bytes.now) }
{
    let (tag, rest) = byte_at(bytes)?;
    limit_of(tag, rest)
}

/// An operator that is nested at most so deep.
#[cycle(ops)]
#[tactic(auto, unfolding(crate::specs::Reading::op_at))]
pub fn op_at(alloc: Global, depth: u16, bytes: &[u8]) -> Result<(Op, &[u8]), PlanFault>
    ensures { Gives (λ x. (x.0, x.1.now)) result (spec.op_at depth bytes.now) }
{
    if depth == 0 {
        return Err(PlanFault::NotAPlan);
    }
    let (tag, rest) = byte_at(bytes)?;
    op_of(alloc, depth - 1, tag, rest)
}

#[cycle(ops)]
fn op_of(alloc: Global, depth: u16, tag: u8, bytes: &[u8]) -> Result<(Op, &[u8]), PlanFault>
    ensures { Gives (λ x. (x.0, x.1.now)) result (spec.op_of (spec.op_at depth) tag bytes.now) }
{
    match tag {
        1 => scan_of(alloc, bytes),
        2 => receive_of(alloc, bytes),
        3 => filter_of(alloc, depth, bytes),
        4 => project_of(alloc, depth, bytes),
        5 => join_of(alloc, depth, bytes),
        6 => partial_of(alloc, depth, bytes),
        7 => final_of(alloc, depth, bytes),
        8 => {
            let (input, rest) = op_at(alloc, depth, bytes)?;
            Ok((distinct(alloc, input)?, rest))
        }
        9 => sort_of(alloc, depth, bytes),
        _ => Err(PlanFault::NotAPlan),
    }
}

fn scan_of(alloc: Global, bytes: &[u8]) -> Result<(Op, &[u8]), PlanFault>
    ensures { Gives (λ x. (x.0, x.1.now)) result (both_at Op.Scan (number_at w32) spec.kinds_at bytes.now) }
{
    let (table, rest) = u32_at(bytes)?;
    let (kinds, rest) = list_at(alloc, rest)?;
    Ok((Op::Scan { table, kinds }, rest))
}

fn receive_of(alloc: Global, bytes: &[u8]) -> Result<(Op, &[u8]), PlanFault>
    ensures { Gives (λ x. (x.0, x.1.now)) result (both_at Op.Receive spec.byte_at spec.kinds_at bytes.now) }
{
    let (slice, rest) = byte_at(bytes)?;
    let (kinds, rest) = list_at(alloc, rest)?;
    Ok((Op::Receive { slice, kinds }, rest))
}

#[cycle(ops)]
fn filter_of(alloc: Global, depth: u16, bytes: &[u8]) -> Result<(Op, &[u8]), PlanFault>
    ensures { Gives (λ x. (x.0, x.1.now)) result (both_at Op.Filter spec.some_expr_at (spec.op_at depth) bytes.now) }
{
    let (cond, rest) = Expr::read(alloc, bytes)?;
    let (input, rest) = op_at(alloc, depth, rest)?;
    Ok((filter(alloc, cond, input)?, rest))
}

#[cycle(ops)]
fn project_of(alloc: Global, depth: u16, bytes: &[u8]) -> Result<(Op, &[u8]), PlanFault>
    ensures { Gives (λ x. (x.0, x.1.now)) result (both_at Op.Project spec.exprs_at (spec.op_at depth) bytes.now) }
{
    let (items, rest) = list_at(alloc, bytes)?;
    let (input, rest) = op_at(alloc, depth, rest)?;
    Ok((project(alloc, items, input)?, rest))
}

#[cycle(ops)]
fn join_of(alloc: Global, depth: u16, bytes: &[u8]) -> Result<(Op, &[u8]), PlanFault>
    ensures { Gives (λ x. (x.0, x.1.now)) result (spec.join_of (spec.op_at depth) bytes.now) }
{
    let (left_keys, rest) = list_at(alloc, bytes)?;
    let (right_keys, rest) = list_at(alloc, rest)?;
    let (left, rest) = op_at(alloc, depth, rest)?;
    let (right, rest) = op_at(alloc, depth, rest)?;
    Ok((join(alloc, left_keys, right_keys, left, right)?, rest))
}

#[cycle(ops)]
fn partial_of(alloc: Global, depth: u16, bytes: &[u8]) -> Result<(Op, &[u8]), PlanFault>
    ensures { Gives (λ x. (x.0, x.1.now)) result (spec.partial_of (spec.op_at depth) bytes.now) }
{
    let (keys, rest) = list_at(alloc, bytes)?;
    let (aggregates, rest) = list_at(alloc, rest)?;
    let (input, rest) = op_at(alloc, depth, rest)?;
    Ok((partial(alloc, keys, aggregates, input)?, rest))
}

#[cycle(ops)]
fn final_of(alloc: Global, depth: u16, bytes: &[u8]) -> Result<(Op, &[u8]), PlanFault>
    ensures { Gives (λ x. (x.0, x.1.now)) result (spec.final_of (spec.op_at depth) bytes.now) }
{
    let (keys, rest) = u16_at(bytes)?;
    let (aggregates, rest) = list_at(alloc, rest)?;
    let (input, rest) = op_at(alloc, depth, rest)?;
    Ok((finish(alloc, keys, aggregates, input)?, rest))
}

#[cycle(ops)]
fn sort_of(alloc: Global, depth: u16, bytes: &[u8]) -> Result<(Op, &[u8]), PlanFault>
    ensures { Gives (λ x. (x.0, x.1.now)) result (spec.sort_of (spec.op_at depth) bytes.now) }
{
    let (order, rest) = list_at(alloc, bytes)?;
    let (limit, rest) = limit_at(rest)?;
    let (input, rest) = op_at(alloc, depth, rest)?;
    Ok((sort(alloc, order, limit, input)?, rest))
}

fn filter(alloc: Global, cond: Expr, input: Op) -> Result<Op, PlanFault>
    ensures { Gives (λ o. o) result (Some (Op.Filter cond input)) }
{
    let input = Boxed::new(alloc, input)?;
    Ok(Op::Filter { cond, input })
}

fn project(alloc: Global, items: Exprs, input: Op) -> Result<Op, PlanFault>
    ensures { Gives (λ o. o) result (Some (Op.Project items input)) }
{
    let input = Boxed::new(alloc, input)?;
    Ok(Op::Project { items, input })
}

fn join(
    alloc: Global,
    left_keys: Keys16,
    right_keys: Keys16,
    left: Op,
    right: Op,
) -> Result<Op, PlanFault>
    ensures { Gives (λ o. o) result (Some (Op.Join left_keys right_keys left right)) }
{
    let left = Boxed::new(alloc, left)?;
    let right = Boxed::new(alloc, right)?;
    Ok(Op::Join {
        left_keys,
        right_keys,
        left,
        right,
    })
}

fn partial(alloc: Global, keys: Keys16, aggregates: Aggregates, input: Op) -> Result<Op, PlanFault>
    ensures { Gives (λ o. o) result (Some (Op.Partial keys aggregates input)) }
{
    let input = Boxed::new(alloc, input)?;
    Ok(Op::Partial {
        keys,
        aggregates,
        input,
    })
}

fn finish(alloc: Global, keys: u16, aggregates: Aggregates, input: Op) -> Result<Op, PlanFault>
    ensures { Gives (λ o. o) result (Some (Op.Final keys aggregates input)) }
{
    let input = Boxed::new(alloc, input)?;
    Ok(Op::Final {
        keys,
        aggregates,
        input,
    })
}

fn distinct(alloc: Global, input: Op) -> Result<Op, PlanFault>
    ensures { Gives (λ o. o) result (Some (Op.Distinct input)) }
{
    Ok(Op::Distinct(Boxed::new(alloc, input)?))
}

fn sort(alloc: Global, order: SortKeys, limit: Option<u64>, input: Op) -> Result<Op, PlanFault>
    ensures { Gives (λ o. o) result (Some (Op.Sort order limit input)) }
{
    let input = Boxed::new(alloc, input)?;
    Ok(Op::Sort {
        order,
        limit,
        input,
    })
}
