//! Expressions and aggregates read.
ghost use Rattle.std.specs.Prelude.{Some};
ghost use Rattle.hq_planwire.specs.Reading as spec;
ghost use Rattle.hq_planwire.specs.Reading.{Gives};

use crate::PlanFault;
use crate::fields::{arith_at, bool_at, byte_at, compare_at, text_at, u16_at, u64_at};
use crate::lists::Member;
use hq_algebra::{Aggregate, ArithKind, CompareKind, Expr};
use hq_value::Value;
use sqlite_items::Boxed;
use std::alloc::Global;

/// How deep an expression of 2,100 parts may be nested.
const DEPTH: u16 = 2101;

/// Two operands.
type Two = (Expr, Expr);

fn literal_of(alloc: Global, tag: u8, bytes: &[u8]) -> Result<(Value, &[u8]), PlanFault>
    ensures { Gives (λ x. (x.0, x.1.now)) result (spec.literal_of tag bytes.now) }
{
    match tag {
        0 => Ok((Value::Null, bytes)),
        1 => {
            let (b, rest) = bool_at(bytes)?;
            Ok((Value::Bool(b), rest))
        }
        2 => {
            let (number, rest) = u64_at(bytes)?;
            Ok((Value::Int(number.cast_signed()), rest))
        }
        3 => {
            let (text, rest) = text_at(alloc, bytes)?;
            Ok((Value::Text(text), rest))
        }
        _ => Err(PlanFault::NotAPlan),
    }
}

#[tactic(auto, unfolding(crate::specs::Reading::literal_at))]
fn literal_at(alloc: Global, bytes: &[u8]) -> Result<(Value, &[u8]), PlanFault>
    ensures { Gives (λ x. (x.0, x.1.now)) result (spec.literal_at bytes.now) }
{
    let (tag, rest) = byte_at(bytes)?;
    literal_of(alloc, tag, rest)
}

/// An expression that is nested at most so deep.
#[cycle(exprs)]
#[tactic(auto, unfolding(crate::specs::Reading::expr_at))]
fn expr_at(alloc: Global, depth: u16, bytes: &[u8]) -> Result<(Expr, &[u8]), PlanFault>
    ensures { Gives (λ x. (x.0, x.1.now)) result (spec.expr_at depth bytes.now) }
{
    if depth == 0 {
        return Err(PlanFault::NotAPlan);
    }
    let (tag, rest) = byte_at(bytes)?;
    expr_of(alloc, depth - 1, tag, rest)
}

#[cycle(exprs)]
fn expr_of(alloc: Global, depth: u16, tag: u8, bytes: &[u8]) -> Result<(Expr, &[u8]), PlanFault>
    ensures { Gives (λ x. (x.0, x.1.now)) result (spec.expr_of (spec.expr_at depth) tag bytes.now) }
{
    match tag {
        1 => {
            let (place, rest) = u16_at(bytes)?;
            Ok((Expr::Column(place), rest))
        }
        2 => {
            let (value, rest) = literal_at(alloc, bytes)?;
            Ok((Expr::Literal(value), rest))
        }
        3 => {
            let (kind, rest) = arith_at(bytes)?;
            let (of, rest) = two_at(alloc, depth, rest)?;
            Ok((arith(alloc, kind, of)?, rest))
        }
        4 => {
            let (kind, rest) = compare_at(bytes)?;
            let (of, rest) = two_at(alloc, depth, rest)?;
            Ok((compare(alloc, kind, of)?, rest))
        }
        5 => {
            let (of, rest) = two_at(alloc, depth, bytes)?;
            Ok((and(alloc, of)?, rest))
        }
        6 => {
            let (of, rest) = two_at(alloc, depth, bytes)?;
            Ok((or(alloc, of)?, rest))
        }
        7 => {
            let (of, rest) = expr_at(alloc, depth, bytes)?;
            Ok((not(alloc, of)?, rest))
        }
        8 => {
            let (of, rest) = expr_at(alloc, depth, bytes)?;
            Ok((is_null(alloc, of)?, rest))
        }
        _ => Err(PlanFault::NotAPlan),
    }
}

#[cycle(exprs)]
fn two_at(alloc: Global, depth: u16, bytes: &[u8]) -> Result<(Two, &[u8]), PlanFault>
    ensures { Gives (λ x. (x.0, x.1.now)) result (spec.two_at (spec.expr_at depth) bytes.now) }
{
    let (left, rest) = expr_at(alloc, depth, bytes)?;
    let (right, rest) = expr_at(alloc, depth, rest)?;
    Ok(((left, right), rest))
}

fn arith(alloc: Global, kind: ArithKind, of: Two) -> Result<Expr, PlanFault>
    ensures { Gives (λ e. e) result (Some (Expr.Arith kind of.0 of.1)) }
{
    let (left, right) = of;
    Ok(Expr::Arith {
        kind,
        left: Boxed::new(alloc, left)?,
        right: Boxed::new(alloc, right)?,
    })
}

fn compare(alloc: Global, kind: CompareKind, of: Two) -> Result<Expr, PlanFault>
    ensures { Gives (λ e. e) result (Some (Expr.Compare kind of.0 of.1)) }
{
    let (left, right) = of;
    Ok(Expr::Compare {
        kind,
        left: Boxed::new(alloc, left)?,
        right: Boxed::new(alloc, right)?,
    })
}

fn and(alloc: Global, of: Two) -> Result<Expr, PlanFault>
    ensures { Gives (λ e. e) result (Some (Expr.And of.0 of.1)) }
{
    let (left, right) = of;
    Ok(Expr::And {
        left: Boxed::new(alloc, left)?,
        right: Boxed::new(alloc, right)?,
    })
}

fn or(alloc: Global, of: Two) -> Result<Expr, PlanFault>
    ensures { Gives (λ e. e) result (Some (Expr.Or of.0 of.1)) }
{
    let (left, right) = of;
    Ok(Expr::Or {
        left: Boxed::new(alloc, left)?,
        right: Boxed::new(alloc, right)?,
    })
}

fn not(alloc: Global, of: Expr) -> Result<Expr, PlanFault>
    ensures { Gives (λ e. e) result (Some (Expr.Not of)) }
{
    Ok(Expr::Not(Boxed::new(alloc, of)?))
}

fn is_null(alloc: Global, of: Expr) -> Result<Expr, PlanFault>
    ensures { Gives (λ e. e) result (Some (Expr.IsNull of)) }
{
    Ok(Expr::IsNull(Boxed::new(alloc, of)?))
}

impl Member for Expr {
    ghost use Rattle.hq_planwire.specs.Reading.{some_expr_at};

    ghost reader = { some_expr_at };

    fn read(alloc: Global, bytes: &[u8]) -> Result<(Expr, &[u8]), PlanFault> {
        expr_at(alloc, DEPTH, bytes)
    }
}

impl Member for Aggregate {
    ghost use Rattle.hq_planwire.specs.Reading.{aggregate_at};

    ghost reader = { aggregate_at };

    #[tactic(auto, unfolding(crate::specs::Reading::aggregate_at))]
    fn read(alloc: Global, bytes: &[u8]) -> Result<(Aggregate, &[u8]), PlanFault> {
        let (tag, rest) = byte_at(bytes)?;
        aggregate_of(alloc, tag, rest)
    }
}

fn aggregate_of(alloc: Global, tag: u8, bytes: &[u8]) -> Result<(Aggregate, &[u8]), PlanFault>
    ensures { Gives (λ x. (x.0, x.1.now)) result (spec.aggregate_of tag bytes.now) }
{
    match tag {
        1 => Ok((Aggregate::CountAll, bytes)),
        2 => {
            let (e, rest) = Expr::read(alloc, bytes)?;
            Ok((Aggregate::Count(e), rest))
        }
        3 => {
            let (e, rest) = Expr::read(alloc, bytes)?;
            Ok((Aggregate::Sum(e), rest))
        }
        4 => {
            let (e, rest) = Expr::read(alloc, bytes)?;
            Ok((Aggregate::Min(e), rest))
        }
        5 => {
            let (e, rest) = Expr::read(alloc, bytes)?;
            Ok((Aggregate::Max(e), rest))
        }
        _ => Err(PlanFault::NotAPlan),
    }
}
