//! Queries with their columns renamed.
ghost use Rattle.std.specs.Prelude.{◌≡◌, IfOk, map};
ghost use Rattle.hq_laws.specs.Turned as spec;
ghost use Rattle.hq_whole.specs.Places.{place_of};

use crate::making::{and, arith, compare, is_null, not, or};
use crate::turn::Turn;
use hq_algebra::{Aggregate, Aggregates, Expr, Exprs, Keys16};
use hq_value::NoMemory;
use std::alloc::Global;

/// New places of columns.
#[derive(Clone, Copy, Debug, PartialEq, Eq)]
pub enum Places {
    /// Each is so much lower.
    Lowered(u16),
    Turned(Turn),
}

impl Places {
    /// The new place of a column.
    pub fn place(&self, place: u16) -> u16
        ensures { result ≡ place_of self.now place }
    {
        match self {
            Places::Lowered(by) => place.saturating_sub(*by),
            Places::Turned(turn) => turned(turn, place),
        }
    }
}

fn turned(turn: &Turn, place: u16) -> u16
    ensures { result ≡ spec.turned turn.now.before turn.now.first turn.now.second place }
{
    if place < turn.before {
        return place;
    }
    if place < turn.before + turn.first {
        return turn.second + place;
    }
    if place < turn.before + turn.first + turn.second {
        return place - turn.first;
    }
    place
}

/// The expression with the place of each column renamed. The call is nested at most as deep as the expression.
pub fn renamed(alloc: Global, to: &Places, e: &Expr) -> Result<Expr, NoMemory>
    ensures { IfOk result (λ new. new ≡ spec.renamed (place_of to.now) e.now) }
{
    match e {
        Expr::Column(place) => Ok(Expr::Column(to.place(*place))),
        Expr::Literal(value) => Ok(Expr::Literal(value.copy()?)),
        Expr::Arith { kind, left, right } => {
            let left = renamed(alloc, to, left.get())?;
            let right = renamed(alloc, to, right.get())?;
            arith(alloc, *kind, left, right)
        }
        Expr::Compare { kind, left, right } => {
            let left = renamed(alloc, to, left.get())?;
            let right = renamed(alloc, to, right.get())?;
            compare(alloc, *kind, left, right)
        }
        Expr::And { left, right } => {
            let left = renamed(alloc, to, left.get())?;
            let right = renamed(alloc, to, right.get())?;
            and(alloc, left, right)
        }
        Expr::Or { left, right } => {
            let left = renamed(alloc, to, left.get())?;
            let right = renamed(alloc, to, right.get())?;
            or(alloc, left, right)
        }
        Expr::Not(of) => {
            let of = renamed(alloc, to, of.get())?;
            not(alloc, of)
        }
        Expr::IsNull(of) => {
            let of = renamed(alloc, to, of.get())?;
            is_null(alloc, of)
        }
    }
}

pub fn renamed_exprs(alloc: Global, to: &Places, exprs: &[Expr]) -> Result<Exprs, NoMemory>
    ensures { IfOk result (λ new. new ≡ map (spec.renamed (place_of to.now)) exprs.now) }
{
    let mut new = Exprs::new(alloc);
    for e in exprs {
        new.push(renamed(alloc, to, e)?)?;
    }
    Ok(new)
}

fn renamed_aggregate(
    alloc: Global,
    to: &Places,
    aggregate: &Aggregate,
) -> Result<Aggregate, NoMemory>
    ensures { IfOk result (λ new. new ≡ spec.renamed_aggregate (place_of to.now) aggregate.now) }
{
    match aggregate {
        Aggregate::CountAll => Ok(Aggregate::CountAll),
        Aggregate::Count(e) => Ok(Aggregate::Count(renamed(alloc, to, e)?)),
        Aggregate::Sum(e) => Ok(Aggregate::Sum(renamed(alloc, to, e)?)),
        Aggregate::Min(e) => Ok(Aggregate::Min(renamed(alloc, to, e)?)),
        Aggregate::Max(e) => Ok(Aggregate::Max(renamed(alloc, to, e)?)),
    }
}

pub fn renamed_aggregates(
    alloc: Global,
    to: &Places,
    aggregates: &[Aggregate],
) -> Result<Aggregates, NoMemory>
    ensures { IfOk result (λ new. new ≡ map (spec.renamed_aggregate (place_of to.now)) aggregates.now) }
{
    let mut new = Aggregates::new(alloc);
    for aggregate in aggregates {
        new.push(renamed_aggregate(alloc, to, aggregate)?)?;
    }
    Ok(new)
}

pub fn renamed_keys(alloc: Global, to: &Places, keys: &[u16]) -> Result<Keys16, NoMemory>
    ensures { IfOk result (λ new. new ≡ map (place_of to.now) keys.now) }
{
    let mut new = Keys16::new(alloc);
    for key in keys {
        new.push(to.place(*key))?;
    }
    Ok(new)
}
