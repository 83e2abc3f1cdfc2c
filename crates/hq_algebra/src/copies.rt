//! Equal expressions, aggregates, operators and motions.
ghost use Rattle.std.specs.Prelude.{◌≡◌, IfOk};

use crate::{Aggregate, Aggregates, Expr, Exprs, Keys16, Motion, Op, SortKey, SortKeys};
use hq_value::{Kind, Kinds, NoMemory, Sequence};
use sqlite_items::Boxed;
use std::alloc::Global;

impl Expr {
    /// An equal expression. The call is nested at most as deep as the expression.
    pub fn copy(&self, alloc: Global) -> Result<Expr, NoMemory>
        ensures { IfOk result (λ copy. copy ≡ self.now) }
    {
        match self {
            Expr::Column(place) => Ok(Expr::Column(*place)),
            Expr::Literal(value) => Ok(Expr::Literal(value.copy()?)),
            Expr::Arith { kind, left, right } => Ok(Expr::Arith {
                kind: *kind,
                left: Boxed::new(alloc, left.get().copy(alloc)?)?,
                right: Boxed::new(alloc, right.get().copy(alloc)?)?,
            }),
            Expr::Compare { kind, left, right } => Ok(Expr::Compare {
                kind: *kind,
                left: Boxed::new(alloc, left.get().copy(alloc)?)?,
                right: Boxed::new(alloc, right.get().copy(alloc)?)?,
            }),
            Expr::And { left, right } => Ok(Expr::And {
                left: Boxed::new(alloc, left.get().copy(alloc)?)?,
                right: Boxed::new(alloc, right.get().copy(alloc)?)?,
            }),
            Expr::Or { left, right } => Ok(Expr::Or {
                left: Boxed::new(alloc, left.get().copy(alloc)?)?,
                right: Boxed::new(alloc, right.get().copy(alloc)?)?,
            }),
            Expr::Not(of) => Ok(Expr::Not(Boxed::new(alloc, of.get().copy(alloc)?)?)),
            Expr::IsNull(of) => Ok(Expr::IsNull(Boxed::new(alloc, of.get().copy(alloc)?)?)),
        }
    }
}

impl Aggregate {
    /// An equal aggregate.
    pub fn copy(&self, alloc: Global) -> Result<Aggregate, NoMemory>
        ensures { IfOk result (λ copy. copy ≡ self.now) }
    {
        match self {
            Aggregate::CountAll => Ok(Aggregate::CountAll),
            Aggregate::Count(e) => Ok(Aggregate::Count(e.copy(alloc)?)),
            Aggregate::Sum(e) => Ok(Aggregate::Sum(e.copy(alloc)?)),
            Aggregate::Min(e) => Ok(Aggregate::Min(e.copy(alloc)?)),
            Aggregate::Max(e) => Ok(Aggregate::Max(e.copy(alloc)?)),
        }
    }
}

impl Motion {
    /// An equal motion.
    pub fn copy(&self, alloc: Global) -> Result<Motion, NoMemory>
        ensures { IfOk result (λ copy. copy ≡ self.now) }
    {
        match self {
            Motion::Gather => Ok(Motion::Gather),
            Motion::Broadcast => Ok(Motion::Broadcast),
            Motion::Redistribute(keys) => {
                Ok(Motion::Redistribute(copy_keys(alloc, keys.as_slice())?))
            }
            Motion::Result => Ok(Motion::Result),
        }
    }
}

impl Op {
    /// An equal operator, with its inputs. The call is nested at most as deep as the operator.
    pub fn copy(&self, alloc: Global) -> Result<Op, NoMemory>
        ensures { IfOk result (λ copy. copy ≡ self.now) }
    {
        match self {
            Op::Scan { table, kinds } => Ok(Op::Scan {
                table: *table,
                kinds: copy_kinds(alloc, kinds.as_slice())?,
            }),
            Op::Receive { slice, kinds } => Ok(Op::Receive {
                slice: *slice,
                kinds: copy_kinds(alloc, kinds.as_slice())?,
            }),
            Op::Filter { cond, input } => Ok(Op::Filter {
                cond: cond.copy(alloc)?,
                input: Boxed::new(alloc, input.get().copy(alloc)?)?,
            }),
            Op::Project { items, input } => Ok(Op::Project {
                items: copy_exprs(alloc, items.as_slice())?,
                input: Boxed::new(alloc, input.get().copy(alloc)?)?,
            }),
            Op::Join {
                left_keys,
                right_keys,
                left,
                right,
            } => Ok(Op::Join {
                left_keys: copy_keys(alloc, left_keys.as_slice())?,
                right_keys: copy_keys(alloc, right_keys.as_slice())?,
                left: Boxed::new(alloc, left.get().copy(alloc)?)?,
                right: Boxed::new(alloc, right.get().copy(alloc)?)?,
            }),
            Op::Partial {
                keys,
                aggregates,
                input,
            } => Ok(Op::Partial {
                keys: copy_keys(alloc, keys.as_slice())?,
                aggregates: copy_aggregates(alloc, aggregates.as_slice())?,
                input: Boxed::new(alloc, input.get().copy(alloc)?)?,
            }),
            Op::Final {
                keys,
                aggregates,
                input,
            } => Ok(Op::Final {
                keys: *keys,
                aggregates: copy_aggregates(alloc, aggregates.as_slice())?,
                input: Boxed::new(alloc, input.get().copy(alloc)?)?,
            }),
            Op::Distinct(input) => Ok(Op::Distinct(Boxed::new(alloc, input.get().copy(alloc)?)?)),
            Op::Sort {
                order,
                limit,
                input,
            } => Ok(Op::Sort {
                order: copy_order(alloc, order.as_slice())?,
                limit: *limit,
                input: Boxed::new(alloc, input.get().copy(alloc)?)?,
            }),
        }
    }
}

/// Equal expressions.
pub fn copy_exprs(alloc: Global, exprs: &[Expr]) -> Result<Exprs, NoMemory>
    ensures { IfOk result (λ copy. copy ≡ exprs.now) }
{
    let mut copy = Sequence::new(alloc);
    for e in exprs {
        copy.push(e.copy(alloc)?)?;
    }
    Ok(copy)
}

/// Equal aggregates.
pub fn copy_aggregates(alloc: Global, aggregates: &[Aggregate]) -> Result<Aggregates, NoMemory>
    ensures { IfOk result (λ copy. copy ≡ aggregates.now) }
{
    let mut copy = Sequence::new(alloc);
    for aggregate in aggregates {
        copy.push(aggregate.copy(alloc)?)?;
    }
    Ok(copy)
}

/// Equal places of columns.
pub fn copy_keys(alloc: Global, keys: &[u16]) -> Result<Keys16, NoMemory>
    ensures { IfOk result (λ copy. copy ≡ keys.now) }
{
    let copy = keys.to_vec(alloc)?;
    Ok(Sequence::from_vec(copy))
}

/// Equal columns to sort by.
pub fn copy_order(alloc: Global, order: &[SortKey]) -> Result<SortKeys, NoMemory>
    ensures { IfOk result (λ copy. copy ≡ order.now) }
{
    let copy = order.to_vec(alloc)?;
    Ok(Sequence::from_vec(copy))
}

/// Equal kinds.
pub fn copy_kinds(alloc: Global, kinds: &[Kind]) -> Result<Kinds, NoMemory>
    ensures { IfOk result (λ copy. copy ≡ kinds.now) }
{
    let copy = kinds.to_vec(alloc)?;
    Ok(Sequence::from_vec(copy))
}
